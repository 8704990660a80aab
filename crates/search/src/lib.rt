// The searches of the cleanup that need no cleaned form: the partial OR's best family, the masks that two monomials contain, and whether a mask is a
// candidate cube. It rests on `form` and `mask_words`.
#![tactic(auto)]

ghost use Rattle.std.specs.Prelude.{◌≡◌, ℕ, suc, ◌-◌, ◌%◌, ◌<◌, bit_and, leb, length, ltb};
ghost use Rattle.std.specs.Int.Count;
ghost use Rattle.bits.specs.Range.{from, keep};
ghost use Rattle.bits.specs.Word.{places};
ghost use Rattle.rules.specs.Cleanup as paper;
ghost use Rattle.form.specs.Masks.{masks};
ghost use Rattle.mask_words.specs.Lookup.{mask_count, subset_word};
ghost use Rattle.search.specs.Family.{family_of, positive};
ghost use Rattle.search.specs.Inner.{best_of, chosen, Having, Reached};

use form::Form;
use mask_words::{Lookup, Mask, Monomial, Ones};

// Sets of masks: those that at least one monomial contains, and those that at least two contain.
#[derive(Clone, Copy)]
struct Contained {
    once: u64,
    twice: u64,
}

// The best family of the partial OR, by its greatest mask. Only masks of single flags that occur can have all their subsets; more flags save more.
pub fn best_family(form: Form, lookup: &Lookup) -> Option<Monomial>
    ensures { family_of result ≡ positive (paper.best_family (masks form)) }
{
    let monomials = form.monomials().word;
    let mut best = None;
    for mask in Ones::of(monomials & lookup.subsets(form.singles())) {
        best = better_family(best, Monomial::of(mask), monomials, lookup);
    }
    best
}

// The mask where its nonempty subsets are among the monomials, fewer than all of them, and it has more flags than the best so far.
fn better_family(
    best: Option<Monomial>,
    mask: Monomial,
    monomials: u64,
    lookup: &Lookup,
) -> Option<Monomial>
    requires { monomials % 2 ≡ 0 }
    ensures { best_of result ≡ chosen (paper.is_partial (places 64 monomials)) (best_of best) mask.mask.bits }
{
    let ones = mask_words::flag_count(usize::from(mask));
    if ones < 2 {
        return best;
    }
    if ones <= flags_of(best) {
        return best;
    }
    let subsets = lookup.subsets(mask.mask);
    if monomials & subsets != subsets {
        return best;
    }
    if monomials == subsets {
        return best;
    }
    Some(mask)
}

// How many flags the best so far has, 0 where there is none: any family has more, as in document 01's search, which begins with the mask 0.
fn flags_of(best: Option<Monomial>) -> usize
    ensures { result ≡ Count.ones (best_of best) }
{
    best.map_or(0, |family| mask_words::flag_count(usize::from(family)))
}

// The nonzero masks that at least two monomials contain, as a form. A monomial that contains a mask contains it without each of its flags too.
pub fn shared_cubes(form: Form) -> Form
    ensures { masks result ≡ keep (λ c. leb 2 (length (paper.covered c (masks form)))) (from 1 (mask_count - 1)) }
{
    let mut found = Contained {
        once: form.monomials().word,
        twice: 0,
    };
    for (flag, having) in mask_words::flag_words().iter().enumerate() {
        found = without_flag(found, *having, flag);
    }
    Form::of_coefficients(found.twice).monomials()
}

// One flag more that a monomial may have beside the mask it contains. `having` is the word of the masks that have the flag.
#[inline]
fn without_flag(found: Contained, having: u64, flag: usize) -> Contained
    requires { flag < 6 }
    ensures { (w : ℕ) → Having having flag → Reached w flag found.once found.twice → Reached w (suc flag) result.once result.twice }
{
    let shift: usize = 1 << flag;
    let once = (found.once & having) >> shift;
    let twice = (found.twice & having) >> shift;
    Contained {
        once: found.once | once,
        twice: found.twice | twice | (found.once & once),
    }
}

// Whether a cube is a candidate: at least two monomials contain it, and it is a single flag or the intersection of two monomials.
#[inline(always)]
pub fn is_cube(form: Form, cube: Monomial, lookup: &Lookup) -> bool
    ensures { result ≡ paper.is_cube (masks form) cube.mask.bits }
{
    let inner = form.stripped(cube, lookup);
    if inner.size() < 2 {
        return false;
    }
    if cube.mask.bits.is_power_of_two() {
        return true;
    }
    has_disjoint(inner.word, lookup)
}

// Whether two of the stripped masks have no flag in common: whether one of them meets a nonempty one within its complement, where it is not itself. A
// walk's `any` asks for a test of every number, so the mask is taken modulo 64.
fn has_disjoint(stripped: u64, lookup: &Lookup) -> bool
    ensures { result ≡ paper.meets (places 64 stripped) 0 }
{
    let is_apart = |mask: usize| -> bool
        ensures { result ≡ ltb 0 (bit_and stripped (subset_word (63 - mask % 64))) }
    { stripped & lookup.subsets(Mask::of(63 - (mask & 63))) != 0 };
    Ones::of(stripped).any(is_apart)
}
