// One writing of a rule: flag count, table word, expression, and the answer that the documents give, with all that the lent buffer must hold
// afterwards. It rests on the package's writer; the promise says that what is compared is the call on paper that the head's bytes ask.
ghost use Rattle.std.specs.Prelude.{◌≡◌, length};
ghost use Rattle.rules.specs.Outcome.{left};
ghost use Rattle.rule_package.specs.Calls.{write_rule};
ghost use Rattle.comparison.specs.Called.{comes_to};
ghost use Rattle.recorded_packages.specs.Writings.{rule_of, written_of, outcome_at, writing_agrees};

use comparison::Outcome;
use comparison::outcome::{alone, comes_to};
use package_writer::write_rule;
use recorded::numbers::{byte_at, pair_at, word_at};
use recorded::pattern;
use recorded::results::recorded_as;

// More than any head asks for.
const ROOM: usize = 2048;

fn expected(head: &[u8]) -> Outcome
    ensures { result ≡ outcome_at head.now }
{
    let number = u64::from(byte_at(head, 20));
    recorded_as(number, alone(usize::from(pair_at(head, 21))))
}

// The rule's length is the result.
fn asked(head: &[u8], expression: &[u8], out: &mut [u8], after: &[u8]) -> bool
    ensures { result ≡ comes_to written_of left (write_rule (rule_of head.now expression.now) (length out.old))
        out.old (outcome_at head.now) after.now }
{
    let flags = word_at(head, 0) as usize;
    let table = word_at(head, 8);
    let told = Outcome::from(write_rule(flags, table, expression, out));
    comes_to(told, out, expected(head), after)
}

// The room is as long as `after`, which it must hold afterwards.
pub fn agrees(head: &[u8], expression: &[u8], after: &[u8]) -> bool
    ensures { result ≡ writing_agrees head.now expression.now after.now }
{
    let room = after.len();
    if room > ROOM {
        return false;
    }
    let mut out = [pattern::BYTE; ROOM];
    asked(head, expression, &mut out[..room], after)
}
