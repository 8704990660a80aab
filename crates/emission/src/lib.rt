// Writing a form by choices: what its choice makes of it, as postfix records. The forms that the choice leaves to clean are written the same way, by
// the choices that there are for them, and where a choice is still to be found the form is planned. Their total literals fall. It rests on
// `anf_cleanup` and on `postfix`.
#![tactic(auto)]

ghost use Rattle.std.specs.Prelude.{None, [], ◌∷◌, not, ◌≡◌, length};
ghost use Rattle.bits.specs.Bit.{within};
ghost use Rattle.bits.specs.Range.{keep, mem};
ghost use Rattle.anf_cleanup.specs.Plan.{built, Allowed, Parts, Right};
ghost use Rattle.form.specs.Masks.{masks};
ghost use Rattle.postfix.specs.Written.{Fits, followed, with_tree};
ghost use Rattle.rules.specs.Cleanup as paper;
ghost use Rattle.rules.specs.Form as raw;
ghost use Rattle.rules.specs.Tree.{write};
ghost use Rattle.emission.specs.inner.Emitted.{Left, Meant};

use anf_cleanup::{Choice, Choices};
use form::Form;
use mask_words::{Lookup, MASK_COUNT, Monomial};
use postfix::Postfix;

// The cleaned form, by choices that are right for it.
#[cycle(emit)]
pub fn emit<const CAP: usize>(form: Form, choices: Choices, lookup: &Lookup, out: &mut Postfix<CAP>)
    requires meant { Meant choices (masks form) }
    requires fits { Fits CAP (write (paper.cleanup (masks form))) out.old }
    ensures { out.new ≡ with_tree out.old (paper.cleanup (masks form)) }
{
    let Some(choice) = choices.form else {
        let plan = anf_cleanup::cleanup(form, lookup);
        let found = Choices::from(plan);
        return emit(form, found, lookup, out);
    };
    match choice {
        Choice::Constant => out.put_constant(form.constant()),
        Choice::Family => out.put_family(form.constant(), usize::from(form.singles())),
        Choice::Raw => emit_raw(form, out),
        Choice::Partial(family) => emit_partial(form, family, choices.rest, lookup, out),
        Choice::Cube(cube) => emit_cube(form, cube, choices, lookup, out),
        Choice::Absorption => emit_absorption(form, out),
    }
}

// The raw form: its terms in their order, folded.
#[tactic(auto, using(crate::proofs::Whole::raws))]
fn emit_raw<const CAP: usize>(form: Form, out: &mut Postfix<CAP>)
    requires { Fits CAP (write (built Choice.Raw (masks form))) out.old }
    ensures { out.new ≡ with_tree out.old (built Choice.Raw (masks form)) }
{
    let mut terms = [0u32; MASK_COUNT];
    let count = form.terms(&mut terms);
    out.put_fold(&terms[..count]);
}

// Rule 2: the chain of the family in XO with the cleaned remainder.
#[cycle(emit)]
#[tactic(auto, unfolding(rules::specs::Tree::write, rules::specs::Tree::size, rules::specs::Ascii::ascii))]
fn emit_partial<const CAP: usize>(
    form: Form,
    family: Monomial,
    rest: Option<Choice>,
    lookup: &Lookup,
    out: &mut Postfix<CAP>,
)
    requires allowed { Allowed (Choice.Partial family) (masks form) }
    requires parts { Parts (Choice.Partial family) (masks form) None rest }
    requires fits { Fits CAP (write (built (Choice.Partial family) (masks form))) out.old }
    ensures { out.new ≡ with_tree out.old (built (Choice.Partial family) (masks form)) }
{
    let (rest, by) = begin_partial(form, family, rest, lookup, out);
    emit(rest, by, lookup, out);
    out.put_mark(b"XO");
}

// The chain of the family. What the family leaves, and the choices for it. Here and for rule 3, what the recursive call asks is promised by a
// function outside the cycle, because in the cycle the check takes no written answer at a recursive call where a type has a const parameter.
#[tactic(auto, unfolding(rules::specs::Tree::write, rules::specs::Tree::size, rules::specs::Ascii::ascii))]
fn begin_partial<const CAP: usize>(
    form: Form,
    family: Monomial,
    rest: Option<Choice>,
    lookup: &Lookup,
    out: &mut Postfix<CAP>,
) -> (Form, Choices)
    requires allowed { Allowed (Choice.Partial family) (masks form) }
    requires parts { Parts (Choice.Partial family) (masks form) None rest }
    requires fits { Fits CAP (write (built (Choice.Partial family) (masks form))) out.old }
    ensures written { out.new ≡ with_tree out.old (raw.or_chain family.mask.bits) }
    ensures left { masks result.0 ≡ keep (λ m. not (mem m (paper.family family.mask.bits))) (masks form) }
    ensures after { Left result.1 (masks result.0) (masks form) }
    ensures fits { Fits CAP (write (paper.cleanup (masks result.0))) out.new }
{
    out.put_or_chain(usize::from(family));
    (form.without(family.mask, lookup), Choices::of(rest))
}

// Rule 3: the product of the cube and the cleaned inner form, in XO with the cleaned remainder unless that is empty.
#[cycle(emit)]
#[tactic(auto, using(crate::proofs::Parts::cubes))]
fn emit_cube<const CAP: usize>(
    form: Form,
    cube: Monomial,
    choices: Choices,
    lookup: &Lookup,
    out: &mut Postfix<CAP>,
)
    requires allowed { Allowed (Choice.Cube cube) (masks form) }
    requires parts { Parts (Choice.Cube cube) (masks form) choices.inner choices.rest }
    requires fits { Fits CAP (write (built (Choice.Cube cube) (masks form))) out.old }
    ensures { out.new ≡ with_tree out.old (built (Choice.Cube cube) (masks form)) }
{
    let (inner, by) = begin_cube(form, cube, choices.inner, lookup, out);
    emit(inner, by, lookup, out);
    let (rest, by) = end_product(form, cube, choices.rest, lookup, out);
    if rest.is_empty() {
        return;
    }
    emit(rest, by, lookup, out);
    out.put_mark(b"XO");
}

// The product of the cube. The cube's inner form, and the choices for it.
#[tactic(auto, using(crate::proofs::Parts::cubes))]
fn begin_cube<const CAP: usize>(
    form: Form,
    cube: Monomial,
    inner: Option<Choice>,
    lookup: &Lookup,
    out: &mut Postfix<CAP>,
) -> (Form, Choices)
    requires allowed { Allowed (Choice.Cube cube) (masks form) }
    requires parts { Right inner (paper.stripped cube.mask.bits (masks form)) }
    requires fits { Fits CAP (write (built (Choice.Cube cube) (masks form))) out.old }
    ensures written { out.new ≡ with_tree out.old (raw.cube cube.mask.bits) }
    ensures left { masks result.0 ≡ paper.stripped cube.mask.bits (masks form) }
    ensures after { Left result.1 (masks result.0) (masks form) }
    ensures fits { Fits CAP (write (paper.cleanup (masks result.0))) out.new }
{
    out.put_product(usize::from(cube));
    (form.stripped(cube, lookup), Choices::of(inner))
}

// The AN of the product and the inner form. What the cube leaves, and the choices for it.
#[tactic(auto, using(crate::proofs::Parts::cubes))]
fn end_product<const CAP: usize>(
    form: Form,
    cube: Monomial,
    rest: Option<Choice>,
    lookup: &Lookup,
    out: &mut Postfix<CAP>,
) -> (Form, Choices)
    requires allowed { Allowed (Choice.Cube cube) (masks form) }
    requires parts { Right rest (keep (λ m. not (within cube.mask.bits m)) (masks form)) }
    requires mark { Fits CAP (65 ∷ 78 ∷ []) out.old }
    requires fits { (length (keep (λ m. not (within cube.mask.bits m)) (masks form)) ≡ 0 → ⊥)
        → Fits CAP (65 ∷ 78 ∷ write (paper.cleanup (keep (λ m. not (within cube.mask.bits m)) (masks form)))) out.old }
    ensures written { out.new ≡ followed out.old (65 ∷ 78 ∷ []) 1 }
    ensures left { masks result.0 ≡ keep (λ m. not (within cube.mask.bits m)) (masks form) }
    ensures after { Left result.1 (masks result.0) (masks form) }
    ensures fits { (length (masks result.0) ≡ 0 → ⊥) → Fits CAP (write (paper.cleanup (masks result.0))) out.new }
{
    out.put_mark(b"AN");
    (form.uncovered(cube.mask, lookup), Choices::of(rest))
}

// Rule 4: the smaller of two monomials without the rest of the larger.
#[tactic(auto, using(crate::proofs::Whole::absorptions))]
fn emit_absorption<const CAP: usize>(form: Form, out: &mut Postfix<CAP>)
    requires allowed { Allowed Choice.Absorption (masks form) }
    requires fits { Fits CAP (write (built Choice.Absorption (masks form))) out.old }
    ensures { out.new ≡ with_tree out.old (built Choice.Absorption (masks form)) }
{
    let pair = form.pair();
    out.put_absorption(
        form.constant(),
        usize::from(pair.first),
        usize::from(pair.second),
    );
}
