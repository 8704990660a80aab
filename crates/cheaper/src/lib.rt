// The cheaper of two expressions, by size and then depth, after `is_better` of `expr_cost.rs`. It rests on the costs of an expression.
#![tactic(auto)]

ghost use Rattle.std.specs.Prelude.{◌≡◌, Some, None};
ghost use Rattle.rules.specs.Calls;
ghost use Rattle.rules.specs.Calls.{cheaper_of};
ghost use Rattle.expr_cost.specs.Answers.{costs_of};
ghost use Rattle.cheaper.specs.Better.{better};
ghost use Rattle.cheaper.specs.Part.{empty_part, cheaper_part};

use expr_cost::{Costs, compute_cost};

// Which of two expressions is the cheaper.
#[derive(Clone, Copy, Debug, PartialEq, Eq)]
pub enum Which {
    First,
    Second,
}

// The second if it is smaller by size, then depth; else the first. None where the flag count or one of the two is refused.
pub fn compare(flags: usize, first: &[u8], second: &[u8]) -> Option<Which>
    ensures { result ≡ cheaper_of None (Some Which.First) (Some Which.Second)
        (Calls.parse flags first.now) (Calls.parse flags second.now) }
{
    let a = compute_cost(flags, first).ok()?;
    let b = compute_cost(flags, second).ok()?;
    if is_better(b, a) {
        return Some(Which::Second);
    }
    Some(Which::First)
}

// The slice of the cheaper one; where the flag count or either expression is refused, the empty part at the front of the first.
pub fn cheaper<'a>(flags: usize, first: &'a [u8], second: &'a [u8]) -> &'a [u8]
    ensures { result ≡ cheaper_part flags first.entry second.entry }
{
    match compare(flags, first, second) {
        Some(Which::First) => first,
        Some(Which::Second) => second,
        None => empty(first),
    }
}

// The part at the front of a slice that holds nothing.
fn empty(s: &[u8]) -> &[u8]
    ensures { result ≡ empty_part s.entry }
{
    &s[..0]
}

// Whether the candidate's size, or with equal sizes its depth, is smaller.
pub fn is_better(candidate: Costs, baseline: Costs) -> bool
    ensures { result ≡ better (costs_of candidate) (costs_of baseline) }
{
    (candidate.size, candidate.depth) < (baseline.size, baseline.depth)
}
