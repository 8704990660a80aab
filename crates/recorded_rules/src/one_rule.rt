// One recorded rule: its table compiled, the recorded expression examined against the table, and the raw cost of the table's
// coefficients. It rests on the comparison of the three calls. The recorded answer has the cost, the raw cost and the number
// of records.
ghost use Rattle.std.specs.Prelude.{◌≡◌};
ghost use Rattle.recorded_rules.specs.Rule.{agree};

use crate::calls::{compiles_to, costs_raw, is_accepted};
use comparison::Outcome;
use recorded::numbers::pair_at;
use recorded::pattern;
use rules::BYTE_LIMIT;

// `left` has the recorded expression in its first `length` bytes. Both are lent because the promise is about any `left`: to take the expression alone
// would ask that what is after it is the pattern.
pub fn agrees(flags: usize, table: &[u64], answer: &[u8], left: &[u8], length: usize) -> bool
    ensures { result ≡ agree flags table.now answer.now left.now length }
{
    if length > left.len() {
        return false;
    }
    let cost = usize::from(pair_at(answer, 0));
    let raw = usize::from(pair_at(answer, 2));
    let records = usize::from(pair_at(answer, 4));
    let expected = Outcome::Results([cost, raw, records, length]);
    let mut out = [pattern::BYTE; BYTE_LIMIT];
    compiles_to(flags, table, &mut out, expected, left)
        & is_accepted(flags, table, &left[..length], cost)
        & costs_raw(flags, table, raw)
}
