// Recorded outcomes: a number, where 0 is no refusal, and results, of which a refusal's first is its place. It rests on
// the numbers in a list of bytes and on the form of an outcome.
ghost use Rattle.std.specs.Prelude.{◌≡◌, ◌+◌, ◌^◌, ◌≤◌};
ghost use Rattle.recorded.specs.Results.{recorded_as, outcome_at};

use crate::numbers::pair_at;
use comparison::Outcome;

// The outcome with that number and these results. The number 0 is the file's.
pub fn recorded_as(number: u64, results: [usize; 4]) -> Outcome
    ensures { result ≡ recorded_as number results }
{
    if number == 0 {
        return Outcome::Results(results);
    }
    Outcome::Refused { number, results }
}

// The outcome with that number, whose three results stand from `at` on, two bytes each.
pub fn outcome_at(number: u64, bytes: &[u8], at: usize) -> Outcome
    requires { at + 6 ≤ 2 ^ 64 }
    ensures { result ≡ outcome_at number bytes.now at }
{
    let result_at = |i: usize| usize::from(pair_at(bytes, at + 2 * i));
    recorded_as(number, [result_at(0), result_at(1), result_at(2), 0])
}
