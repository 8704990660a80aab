// Calls that the library must refuse, with the number and the place that each must give, and every lent entry unchanged.
// Where several rows of the table of refusals apply, the upper one counts. It rests on the comparison of the two calls and on the counting of
// refusals.
use comparison::{Outcome, Tally};
use recorded::pattern::WORD as PATTERN;
use recorded_transforms::calls::{goes_back_to, transforms_to};
use replay::refusals;
use replay::refusals::{Case, Wrong};
use rules::Reason::{ShortCoefficients, ShortOutput, ShortTable, StrayCoefficient, TooManyFlags};
use std::io;

// The number is each entry of the table.
const TRANSFORMS: [Case; 9] = [
    (17, 1, 65536, 1024, TooManyFlags, 0),
    (17, 1, 0, 0, TooManyFlags, 0),
    (0, 1, 0, 1, ShortTable, 0),
    (3, 1, 7, 1, ShortTable, 0),
    (3, 1, 7, 0, ShortTable, 0),
    (16, 1, 65535, 1024, ShortTable, 0),
    (0, 1, 1, 0, ShortOutput, 1),
    (7, 1, 128, 1, ShortOutput, 2),
    (16, 1, 65536, 1023, ShortOutput, 1024),
];

// The number is each coefficient word.
const WAYS_BACK: [Case; 11] = [
    (17, 1, 1024, 65536, TooManyFlags, 0),
    (17, 1, 0, 0, TooManyFlags, 0),
    (0, 1, 0, 1, ShortCoefficients, 0),
    (7, 1, 1, 128, ShortCoefficients, 0),
    (16, 1, 1023, 65536, ShortCoefficients, 0),
    (0, 2, 1, 1, StrayCoefficient, 0),
    (3, 256, 1, 8, StrayCoefficient, 0),
    (5, 0x8000_0000_0000_0000, 1, 0, StrayCoefficient, 0),
    (0, 1, 1, 0, ShortOutput, 1),
    (3, 255, 1, 7, ShortOutput, 8),
    (16, 1, 1024, 65535, ShortOutput, 65536),
];

// The transform of a table of `length` equal entries into a buffer of `room` words. This and the next have each other's sizes and another call: a
// function of both would take four lengths and the call, and be no plainer.
fn transform(flags: usize, entry: u64, length: usize, room: usize, expected: Outcome) -> bool {
    let table = [entry; 65536];
    let mut out = [PATTERN; 1024];
    let left = [PATTERN; 1024];
    if length > 65536 || room > 1024 {
        return false;
    }
    transforms_to(
        flags,
        &table[..length],
        &mut out[..room],
        expected,
        &left[..room],
    )
}

// The way back from `length` equal coefficient words into a buffer of `room` entries.
fn way_back(flags: usize, word: u64, length: usize, room: usize, expected: Outcome) -> bool {
    let coefficients = [word; 1024];
    let mut out = [PATTERN; 65536];
    let left = [PATTERN; 65536];
    if length > 1024 || room > 65536 {
        return false;
    }
    goes_back_to(
        flags,
        &coefficients[..length],
        &mut out[..room],
        expected,
        &left[..room],
    )
}

fn all(wrong: Wrong) -> Tally {
    let mut tally = Tally::default();
    refusals::count(&TRANSFORMS, wrong, &mut tally, transform);
    refusals::count(&WAYS_BACK, wrong, &mut tally, way_back);
    tally
}

// Good calls. The second of each two has the answer that it gets, so that only the buffer, which is not as before, differs.
fn results() -> Tally {
    let mut tally = Tally::default();
    for expected in [Outcome::from(ShortOutput.at(1)), Outcome::one(1)] {
        tally.count(transform(0, 1, 1, 1, expected));
        tally.count(way_back(0, 1, 1, 1, expected));
    }
    tally
}

pub fn replay<R: Print>(rt: &R) -> io::Result<()> {
    refusals::replay(rt, all, results())
}
