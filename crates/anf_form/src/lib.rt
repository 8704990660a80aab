// The monomials of a form in their order and its raw cost, after `AnfForm::from_anf_coeffs` and `raw_anf_cost` of `anf_cleanup.rs`. It rests on
// `form` and on `packed_anf`.
#![tactic(auto)]

mod degree;
mod mask_order;

ghost use Rattle.std.specs.Prelude.{◌≡◌, ◌≤◌, length};
ghost use Rattle.rules.specs.Calls;
ghost use Rattle.rules.specs.Outcome.{left, gives, ◌then◌};
ghost use Rattle.anf_form.specs.Answers.{listing_of, raw_cost_of};
ghost use Rattle.anf_form.specs.Inner.{held};

use packed_anf::lent::Coefficients;
use rules::{FORM_FLAGS, RULE_FLAGS, Reason, Refusal};

// What was listed: the constant, and the number of monomials.
#[derive(Clone, Copy, Debug, PartialEq, Eq)]
pub struct Contents {
    pub constant: bool,
    pub count: usize,
}

// The monomials by count of ones, then mask, at the front of `out`.
pub fn from_anf_coeffs(
    flags: usize,
    coefficients: &[u64],
    out: &mut [u32],
) -> Result<Contents, Refusal>
    ensures answer { listing_of out.new result ≡ Calls.listing flags coefficients.now (length out.old) }
    ensures lent { out.new ≡ left out.old
        (Calls.listing flags coefficients.now (length out.old) then (λ l. gives l.masks)) }
{
    let coefficients = Coefficients::<FORM_FLAGS>::checked(flags, coefficients)?;
    let constant = packed_anf::get(coefficients.words, 0);
    let count = mask_count(coefficients.words) - usize::from(constant);
    if out.len() < count {
        return Err(Reason::ShortOutput.at(count));
    }
    degree::list(coefficients, out);
    Ok(Contents { constant, count })
}

// The cost of the raw form, from its coefficients: its terms are added up in mask order.
pub fn raw_anf_cost(flags: usize, coefficients: &[u64]) -> Result<usize, Refusal>
    ensures { raw_cost_of result ≡ Calls.raw_costing flags coefficients.now }
{
    let coefficients = Coefficients::<RULE_FLAGS>::checked(flags, coefficients)?;
    Ok(mask_order::raw_cost(coefficients.words))
}

// How many coefficients are 1. The words are lent by themselves: of those in a struct a proof doesn't know that they are below 2^64.
fn mask_count(words: &[u64]) -> usize
    requires { length words.now ≤ 1024 }
    ensures { result ≡ length (held (length words.now) words.now) }
{
    words.iter().map(|word| word.count_ones() as usize).sum()
}
