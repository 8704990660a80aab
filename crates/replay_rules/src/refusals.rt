// Calls that the compiler must refuse, with the number and the place that each must give, and the lent buffer unchanged.
// Where several rows of the table of refusals apply, the upper one counts. It rests on the comparison of the compiler's call and on the counting of
// refusals.
use comparison::{Outcome, Tally};
use recorded::pattern::BYTE as PATTERN;
use recorded::slices::set_table;
use recorded_rules::calls::compiles_to;
use replay::refusals;
use replay::refusals::{Case, Wrong};
use rules::BYTE_LIMIT;
use rules::Reason::{ShortOutput, ShortTable, TooManyFlags};
use std::io;

// The digits of the number are the table. The last lack a byte of the buffer, or all: the lengths are those of document 01's marked rows.
const CASES: [Case; 16] = [
    (7, 2, 128, BYTE_LIMIT, TooManyFlags, 0),
    (7, 2, 0, 0, TooManyFlags, 0),
    (0, 0, 0, BYTE_LIMIT, ShortTable, 0),
    (1, 2, 1, BYTE_LIMIT, ShortTable, 0),
    (3, 0xE8, 7, BYTE_LIMIT, ShortTable, 0),
    (3, 0xE8, 7, 0, ShortTable, 0),
    (6, 2, 63, BYTE_LIMIT, ShortTable, 0),
    (0, 0, 1, 2, ShortOutput, 3),
    (0, 0, 1, 0, ShortOutput, 3),
    (1, 1, 2, 7, ShortOutput, 8),
    (2, 14, 4, 7, ShortOutput, 8),
    (2, 2, 4, 9, ShortOutput, 10),
    (3, 8, 8, 14, ShortOutput, 15),
    (3, 0xE8, 8, 22, ShortOutput, 23),
    (3, 0xFE, 8, 12, ShortOutput, 13),
    (3, 1, 8, 17, ShortOutput, 18),
];

// The first `length` entries of the table whose bits are the digits of `table`, into a buffer of `room` bytes.
fn refusal(flags: usize, table: u64, length: usize, room: usize, expected: Outcome) -> bool {
    if length > 128 || room > BYTE_LIMIT {
        return false;
    }
    let mut entries = [0u64; 128];
    set_table(&mut entries, &table.to_le_bytes());
    let mut out = [PATTERN; BYTE_LIMIT];
    let left = [PATTERN; BYTE_LIMIT];
    compiles_to(
        flags,
        &entries[..length],
        &mut out[..room],
        expected,
        &left[..room],
    )
}

fn all(wrong: Wrong) -> Tally {
    let mut tally = Tally::default();
    refusals::count(&CASES, wrong, &mut tally, refusal);
    tally
}

// Good calls: of two of these rules, in the room that they need.
fn results() -> Tally {
    let mut tally = Tally::default();
    tally.count(refusal(0, 0, 1, 3, Outcome::from(ShortOutput.at(3))));
    tally.count(refusal(3, 0xE8, 8, 23, Outcome::from(ShortOutput.at(23))));
    tally
}

pub fn replay<R: Print>(rt: &R) -> io::Result<()> {
    refusals::replay(rt, all, results())
}
