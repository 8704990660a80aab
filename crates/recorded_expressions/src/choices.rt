// One pair of choices.bin: two sizes and depths, whether the original finds the second better, and, where they are those
// of two expressions, the records of both. It rests on the test of the better and on the choice of the cheaper.
ghost use Rattle.std.specs.Prelude.{◌≡◌};
ghost use Rattle.recorded_expressions.specs.Cases.{test_agrees, choice_agrees};

use comparison::Outcome;
use recorded::numbers::byte_at;
use recorded_calls as calls;
use rules::RULE_FLAGS;

pub fn compares(head: &[u8]) -> bool
    ensures { result ≡ test_agrees head.now }
{
    let better = usize::from(byte_at(head, 16));
    calls::comparison(head) == Outcome::one(better)
}

pub fn chooses(first: &[u8], second: &[u8], chosen: usize) -> bool
    ensures { result ≡ choice_agrees first.now second.now chosen }
{
    calls::choice(RULE_FLAGS, first, second) == Outcome::one(chosen)
}
