// The cleanup's choice: which of document 01's rules gives the cheapest expression for a form, and at what cost, after `cleanup_anf` and
// `find_best_factor` of `anf_cleanup.rs`. Nothing is written here. The cleanup and the best-cube search call each other, and the form's total
// literals fall from one cleanup to the next. It rests on `form` and on `search`.
#![tactic(auto)]

ghost use Rattle.std.specs.Prelude.{Some, None, true, List, [], ◌∷◌, ℕ, ◌≡◌, ◌<◌, ◌≤◌, length};
ghost use Rattle.form.specs.Masks.{masks};
ghost use Rattle.rules.specs.Cleanup as paper;
ghost use Rattle.rules.specs.Form as raw;
ghost use Rattle.rules.specs.Tree.{Tree, cost};
ghost use Rattle.anf_cleanup.specs.Inner.{Improved, best_of, gross, least, Tried, Chosen};
ghost use Rattle.anf_cleanup.specs.Plan.{Planned};

use form::Form;
use mask_words::{Lookup, Monomial};

// The rule that wins: no monomials, the whole OR family, the raw form, or the candidate of rule 2, 3 or 4, with its mask. A mask is a byte, so that a
// plan, which the search copies at every cleanup and every cube, is two words.
#[derive(Clone, Copy, Debug, PartialEq, Eq)]
pub enum Choice {
    Constant,
    Family,
    Raw,
    Partial(Monomial),
    Cube(Monomial),
    Absorption,
}

// The choice for a form, and those for what it leaves to clean: rule 3's inner form, and the remainder of rule 2 or 3. Where there is none it is
// still to be found.
#[derive(Clone, Copy, Debug, PartialEq, Eq)]
pub struct Choices {
    pub form: Option<Choice>,
    pub inner: Option<Choice>,
    pub rest: Option<Choice>,
}

// The choice for a form, those for what it leaves to clean, and what the form costs by them. They are no `Choices`: those take nine bytes, an
// `Option` for each of three choices, so seven bytes of padding before the cost were copied with every plan, and a compilation of four flags took
// 1,031 ns, with these eight bytes 992. The bar: compiling takes no longer than in 0.5.1.
#[derive(Clone, Copy, Debug, PartialEq, Eq)]
pub struct Plan {
    pub choice: Choice,
    pub inner: Option<Choice>,
    pub rest: Option<Choice>,
    pub cost: usize,
}

// A cube with its saving and the plan of its inner form.
#[derive(Clone, Copy)]
struct Best {
    cube: Monomial,
    saving: usize,
    inner: Plan,
}

impl Choices {
    // The choice for a form, with none for its parts.
    #[inline]
    pub fn of(form: Option<Choice>) -> Choices
        ensures { result ≡ record { form = form; inner = None; rest = None } }
    {
        Choices {
            form,
            inner: None,
            rest: None,
        }
    }
}

impl From<Plan> for Choices {
    ghost from_gives = { λ plan choices. choices ≡ record { form = Some plan.choice; inner = plan.inner; rest = plan.rest } };

    #[inline]
    fn from(plan: Plan) -> Choices {
        Choices {
            form: Some(plan.choice),
            inner: plan.inner,
            rest: plan.rest,
        }
    }
}

// The cost of a product, and of an OR chain, of the flags of a mask.
#[inline(always)]
fn product_cost(product: Monomial) -> usize
    ensures { result ≡ cost (raw.cube product.mask.bits) }
{
    2 * mask_words::flag_count(usize::from(product)) - 1
}

// A chain's first OR costs 1, and one beneath another OR nothing: one flag costs 1, and more of them 1 beyond their number.
fn chain_cost(mask: usize) -> usize
    ensures { (result ≡ cost (raw.or_chain mask)) × (result ≤ 65) }
{
    let ones = mask_words::flag_count(mask);
    if ones < 2 {
        return 1;
    }
    ones + 1
}

// The plan of a choice that leaves no form to clean.
fn whole(choice: Choice, cost: usize) -> Plan
    ensures { result ≡ record { choice = choice; inner = None; rest = None; cost = cost } }
{
    Plan {
        choice,
        inner: None,
        rest: None,
        cost,
    }
}

// The plan of rule 3's candidate.
fn factored(found: Best, cost: usize, rest: Option<Choice>) -> Plan
    ensures { result ≡ record {
      choice = Choice.Cube found.cube;
      inner = Some found.inner.choice;
      rest = rest;
      cost = cost;
    } }
{
    Plan {
        choice: Choice::Cube(found.cube),
        inner: Some(found.inner.choice),
        rest,
        cost,
    }
}

// The cheaper of two plans, the first of those that cost the same.
#[inline]
fn cheaper(best: Plan, plan: Plan) -> Plan
    ensures { (l : List ℕ) (u : Tree) → Planned l u plan → Improved l (u ∷ []) best result }
{
    if best.cost <= plan.cost {
        return best;
    }
    plan
}

// The rule that wins for a form.
#[cycle(cleanup)]
pub fn cleanup(form: Form, lookup: &Lookup) -> Plan
    ensures { Planned (masks form) (paper.cleanup (masks form)) result }
{
    let count = form.count();
    if count == 0 {
        return whole(Choice::Constant, 1);
    }
    if form.is_family(lookup) {
        return whole(
            Choice::Family,
            chain_cost(usize::from(form.singles())) + 2 * usize::from(form.constant()),
        );
    }
    let first = whole(Choice::Raw, form.raw_cost());
    if count == 1 {
        return first;
    }
    let second = partial_or(form, first, lookup);
    let third = common_cube(form, second, lookup);
    absorption(form, third)
}

// Rule 2: the chain of the best family, in XO with the cleaned remainder.
#[cycle(cleanup)]
fn partial_or(form: Form, best: Plan, lookup: &Lookup) -> Plan
    ensures { Improved (masks form) (paper.partial_or paper.cleanup (masks form)) best result }
{
    let Some(family) = search::best_family(form, lookup) else {
        return best;
    };
    let rest = form.without(family.mask, lookup);
    let plan = cleanup(rest, lookup);
    let cost = chain_cost(usize::from(family)) + plan.cost + 1;
    let chosen = Plan {
        choice: Choice::Partial(family),
        inner: None,
        rest: Some(plan.choice),
        cost,
    };
    cheaper(best, chosen)
}

// Rule 3: the product of the best cube and the cleaned inner form, in XO with the cleaned remainder unless that is empty.
#[cycle(cleanup)]
fn common_cube(form: Form, best: Plan, lookup: &Lookup) -> Plan
    ensures { Improved (masks form) (paper.common_cube paper.cleanup (masks form)) best result }
{
    let Some(found) = best_cube(form, lookup) else {
        return best;
    };
    let product = product_cost(found.cube) + found.inner.cost + 1;
    let rest = form.uncovered(found.cube.mask, lookup);
    if rest.is_empty() {
        return cheaper(best, factored(found, product, None));
    }
    let plan = cleanup(rest, lookup);
    let cost = product + plan.cost + 1;
    cheaper(best, factored(found, cost, Some(plan.choice)))
}

// The cube of the greatest saving, the smallest of equal ones: every mask that two monomials contain is tried in ascending order.
#[cycle(cleanup)]
fn best_cube(form: Form, lookup: &Lookup) -> Option<Best>
    ensures { Chosen (masks form) result }
{
    let mut best = None;
    for cube in search::shared_cubes(form).masks() {
        if let Some(better) = try_cube(form, Monomial::of(cube), saved(best), lookup) {
            best = Some(better);
        }
    }
    best
}

// A cube that saves more than `most`, if it is a candidate. Its inner form is cleaned for its cost only where the cube could save more at the least
// that a form with these flags can cost. The test before that, at no cost, spares most cubes the search for these flags.
#[cycle(cleanup)]
#[inline(always)]
fn try_cube(form: Form, cube: Monomial, most: usize, lookup: &Lookup) -> Option<Best>
    ensures { Tried (masks form) cube.mask.bits most result }
{
    if !search::is_cube(form, cube, lookup) {
        return None;
    }
    let gross = gross_saving(form, cube, lookup);
    if gross <= most {
        return None;
    }
    let inner = inner_form(form, cube, lookup);
    if gross - least_cost(inner) <= most {
        return None;
    }
    let plan = cleanup(inner, lookup);
    let saving = gross - plan.cost;
    if saving <= most {
        return None;
    }
    Some(Best {
        cube,
        saving,
        inner: plan,
    })
}

// A candidate cube's inner form, with what the search for its cost rests on: it has fewer literals, and the numbers of the last clause ascend.
#[inline]
fn inner_form(form: Form, cube: Monomial, lookup: &Lookup) -> Form
    requires { paper.is_cube (masks form) cube.mask.bits ≡ true }
    ensures stripped { masks result ≡ paper.stripped cube.mask.bits (masks form) }
    ensures many { 2 ≤ length (masks result) }
    ensures fewer { raw.literals (masks result) < raw.literals (masks form) }
    ensures bounds { (least (masks result) ≤ cost (paper.cleanup (masks result)))
        × (cost (paper.cleanup (masks result)) ≤ gross cube.mask.bits (masks form)) }
{
    form.stripped(cube, lookup)
}

// What the best so far saves, 0 where there is none: document 01's search begins with a saving of 0.
fn saved(best: Option<Best>) -> usize
    ensures { result ≡ (best_of best).saving }
{
    best.map_or(0, |best| best.saving)
}

// What a cube saves before its inner form is paid for: the raw cost of the covered monomials, less 1, less the cube's cost.
#[inline(always)]
fn gross_saving(form: Form, cube: Monomial, lookup: &Lookup) -> usize
    requires { paper.is_cube (masks form) cube.mask.bits ≡ true }
    ensures { result ≡ gross cube.mask.bits (masks form) }
{
    2 * form.covered_literals(cube.mask, lookup) - 2 - product_cost(cube)
}

// No expression that names all flags of a form costs less than their OR chain, and a constant 1 costs 2 more.
fn least_cost(inner: Form) -> usize
    requires { 2 ≤ length (masks inner) }
    ensures { result ≡ least (masks inner) }
{
    chain_cost(inner.flags()) + 2 * usize::from(inner.constant())
}

// Rule 4: of two monomials of which one is a subset of the other, the smaller without the rest of the larger.
fn absorption(form: Form, best: Plan) -> Plan
    ensures { Improved (masks form) (paper.absorption (masks form)) best result }
{
    if form.count() != 2 {
        return best;
    }
    let pair = form.pair();
    let first = usize::from(pair.first);
    let second = usize::from(pair.second);
    if first & second != first {
        return best;
    }
    let rest = Monomial::of(second - first);
    let constant = 2 * usize::from(form.constant());
    let cost = product_cost(pair.first) + product_cost(rest) + 2 + constant;
    cheaper(best, whole(Choice::Absorption, cost))
}
