// The compiler's call with the outcome that it must have and the whole buffer that it must leave, the examiner's with the cost
// that it must accept, and raw costing's, of what the transform makes of a table, with the cost that it must give. It rests on
// those calls; the promises say that what is compared is the call on paper.
ghost use Rattle.std.specs.Prelude.{◌≡◌, length};
ghost use Rattle.rules.specs.Calls as paper;
ghost use Rattle.comparison.specs.Called.{comes_to};
ghost use Rattle.comparison.specs.Outcome.{results, same_outcome};
ghost use Rattle.recorded.specs.Results.{number_of};
ghost use Rattle.recorded_rules.specs.Answers.{numbers_of, compiled_of, bytes_after};
ghost use Rattle.recorded_rules.specs.Rule.{table_raw_costing};

use anf_form::raw_anf_cost;
use anf_transform::compute_anf;
use comparison::Outcome;
use comparison::outcome::comes_to;
use compiler::{Expression, build_anf_expr};
use examiner::examine;

// Cost, raw cost, number of records and number of bytes are the results.
fn numbers(rule: Expression) -> [usize; 4]
    ensures { result ≡ numbers_of rule }
{
    [rule.cost, rule.raw, rule.records, rule.bytes]
}

pub fn compiles_to(
    flags: usize,
    table: &[u64],
    out: &mut [u8],
    expected: Outcome,
    left: &[u8],
) -> bool
    ensures { result ≡ comes_to compiled_of bytes_after (paper.compile flags table.now (length out.old))
        out.old expected left.now }
{
    let answer = build_anf_expr(flags, table, out);
    let told = Outcome::from(answer.map(numbers));
    comes_to(told, out, expected, left)
}

pub fn is_accepted(flags: usize, table: &[u64], bytes: &[u8], cost: usize) -> bool
    ensures { result ≡ same_outcome (number_of (paper.examine flags table.now bytes.now)) (results cost 0 0 0) }
{
    Outcome::from(examine(flags, table, bytes)) == Outcome::one(cost)
}

// The coefficients of a rule's table are one word. Where the transform refuses, the word stays 0; the compiler then refuses too, so the rule differs.
pub fn costs_raw(flags: usize, table: &[u64], raw: usize) -> bool
    ensures { result ≡ same_outcome (number_of (table_raw_costing flags table.now)) (results raw 0 0 0) }
{
    let mut words = [0u64; 1];
    let _ = compute_anf(flags, table, &mut words);
    Outcome::from(raw_anf_cost(flags, &words)) == Outcome::one(raw)
}
