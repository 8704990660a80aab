// The library's two calls, each with the outcome that it must have and the whole buffer that it must leave. It rests on
// those calls; the promises say that what is compared is the call on paper.
ghost use Rattle.std.specs.Prelude.{◌≡◌, length};
ghost use Rattle.rules.specs.Calls.{transform, way_back};
ghost use Rattle.rules.specs.Outcome as outcomes;
ghost use Rattle.comparison.specs.Called.{comes_to};
ghost use Rattle.recorded_transforms.specs.Answers.{outcome_of};

use anf_transform::{compute_anf, compute_table};
use comparison::Outcome;
use comparison::outcome::comes_to;

// This and the next differ in the call: a function of both would take the call, and what it means on paper, and be no plainer.
pub fn transforms_to(
    flags: usize,
    table: &[u64],
    out: &mut [u64],
    expected: Outcome,
    left: &[u64],
) -> bool
    ensures { result ≡ comes_to outcome_of outcomes.left (transform flags table.now (length out.old))
        out.old expected left.now }
{
    let told = Outcome::from(compute_anf(flags, table, out));
    comes_to(told, out, expected, left)
}

pub fn goes_back_to(
    flags: usize,
    coefficients: &[u64],
    entries: &mut [u64],
    expected: Outcome,
    left: &[u64],
) -> bool
    ensures { result ≡ comes_to outcome_of outcomes.left (way_back flags coefficients.now (length entries.old))
        entries.old expected left.now }
{
    let told = Outcome::from(compute_table(flags, coefficients, entries));
    comes_to(told, entries, expected, left)
}
