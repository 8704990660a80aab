// One reading of readings.bin: the flag count, a place, an expression, and the record that the documents find at the place, or the refusal. It rests
// on the reader; the promise says that what is compared is the call on paper that the head's bytes ask. `replay_expressions` reads the file; its data
// folder has the format.
#![tactic(auto)]

ghost use Rattle.std.specs.Prelude.{◌≡◌};
ghost use Rattle.rules.specs.Calls as paper;
ghost use Rattle.rules.specs.Record.{Flag};
ghost use Rattle.expr.specs.Answers.{kind_of};
ghost use Rattle.reader.specs.Answers.{found_of};
ghost use Rattle.recorded_readings.specs.Readings.{code_of, numbers_of, read_of, reading_at, reading_agrees};

use comparison::Outcome;
use expr::Kind;
use reader::Node;
use recorded::numbers::{byte_at, pair_at, word_at};
use recorded::results::recorded_as;

// What the file has for the end in place of a record's code.
const END: usize = 255;

// A flag by the code that the files have for it. They have eight, so that any other takes a number past the end's, by which no two records are one.
fn flag_code(index: u8) -> usize
    ensures { result ≡ code_of (Flag index) }
{
    if index < 8 {
        return 2 + usize::from(index);
    }
    1 + END + usize::from(index)
}

// A record by the code that the files have for it.
fn code(kind: Kind) -> usize
    ensures { result ≡ code_of (kind_of kind) }
{
    match kind {
        Kind::Constant(value) => usize::from(value),
        Kind::Variable(index) => flag_code(index),
        Kind::And => 10,
        Kind::Or => 11,
        Kind::Xor => 12,
        Kind::Not => 13,
    }
}

fn numbers(found: Option<Node>) -> [usize; 4]
    ensures { result ≡ numbers_of (found_of found) }
{
    match found {
        Some(node) => [code(node.kind), node.next, node.first, node.second],
        None => [END, 0, 0, 0],
    }
}

fn answer(flags: usize, bytes: &[u8], place: usize) -> Outcome
    ensures { result ≡ read_of (paper.read flags bytes.now place) }
{
    Outcome::from(reader::read(flags, bytes, place).map(numbers))
}

// Four results, two bytes each.
fn expected(head: &[u8]) -> Outcome
    ensures { result ≡ reading_at head.now }
{
    let result_at = |at| usize::from(pair_at(head, at));
    recorded_as(
        u64::from(byte_at(head, 18)),
        [result_at(19), result_at(21), result_at(23), result_at(25)],
    )
}

pub fn agrees(head: &[u8], bytes: &[u8]) -> bool
    ensures { result ≡ reading_agrees head.now bytes.now }
{
    let flags = word_at(head, 0) as usize;
    let place = word_at(head, 8) as usize;
    answer(flags, bytes, place) == expected(head)
}
