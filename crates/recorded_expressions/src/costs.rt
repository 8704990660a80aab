// One expression of costs.bin: the original's cost, size and depth in the head, and the expression's bytes. It rests on the
// costing call.
ghost use Rattle.std.specs.Prelude.{◌≡◌};
ghost use Rattle.recorded_expressions.specs.Cases.{costs_agree};

use recorded::results::outcome_at;
use rules::RULE_FLAGS;

pub fn agrees(head: &[u8], bytes: &[u8]) -> bool
    ensures { result ≡ costs_agree head.now bytes.now }
{
    recorded_calls::costing(RULE_FLAGS, bytes) == outcome_at(0, head, 0)
}
