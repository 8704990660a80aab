// One case of cases.bin: a call with its arguments, and the outcome that document 01 gives it. It rests on the calls; the
// promises say that what is compared is the call on paper that the head's bytes ask.
// `number` and `res` are 0, or 1 to make the outcome's number, or its first result, a wrong one. They stay numbers: the function
// took any number before, and a type must not ask more.
ghost use Rattle.std.specs.Prelude.{◌≡◌};
ghost use Rattle.recorded_expressions.specs.Cases.{case_of, recorded_of, agreed};

use comparison::Outcome;
use recorded::numbers::{byte_at, pair_at, word_at};
use recorded::results::recorded_as;

fn answer(head: &[u8], first: &[u8], second: &[u8]) -> Outcome
    ensures { result ≡ case_of head.now first.now second.now }
{
    if head.len() < 38 {
        return Outcome::Damaged;
    }
    let flags = word_at(head, 1) as usize;
    let setting = word_at(head, 9) as usize;
    let entries = pair_at(head, 17) as usize;
    let bits = &head[19..27];
    let call = head[0];
    // The number of a call is its file's, which this reads.
    match call {
        1 => recorded_calls::evaluation(flags, first, setting),
        2 => recorded_calls::costing(flags, first),
        3 => recorded_calls::examination(flags, entries, bits, first),
        4 => recorded_calls::raw_costing(flags, entries, bits),
        5 => recorded_calls::choice(flags, first, second),
        _ => Outcome::Damaged,
    }
}

fn expected(head: &[u8], number: u64, res: usize) -> Outcome
    ensures { result ≡ recorded_of head.now number res }
{
    let result_at = |at| usize::from(pair_at(head, at));
    recorded_as(
        u64::from(byte_at(head, 31)) ^ number,
        [result_at(32) ^ res, result_at(34), result_at(36), 0],
    )
}

pub fn agrees(head: &[u8], first: &[u8], second: &[u8], number: u64, res: usize) -> bool
    ensures { result ≡ agreed head.now first.now second.now number res }
{
    answer(head, first, second) == expected(head, number, res)
}
