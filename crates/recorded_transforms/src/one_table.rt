// One recorded table, taken one way: its bits through the transform, or its recorded coefficients back. It rests on the
// comparison of the two calls. Each buffer has three entries more than its result, which must stay as they were; on the way
// back the coefficient words have three more too, which must be ignored.
ghost use Rattle.std.specs.Prelude.{◌≡◌, ◌+◌, ◌^◌, ◌≤◌, length};
ghost use Rattle.recorded_transforms.specs.Table.{transformed, restored, agreed};

use crate::calls::{goes_back_to, transforms_to};
use comparison::Outcome;
use recorded::pattern::WORD;
use recorded::sizes;
use recorded::slices::{set_bits, set_pattern, set_table, set_words};

// Which call is asked: the transform, or the way back.
#[derive(Clone, Copy)]
pub enum Way {
    There,
    Back,
}

// Room for the largest table, for one table after another: its entries, its words, the entries that come back, and what must be left.
#[derive(Drop)]
pub struct Space {
    table: [u64; 65536],
    words: [u64; 1027],
    entries: [u64; 65539],
    left: [u64; 65539],
}

impl Space {
    // No clause: each comparison fills what it reads of the arrays, so no caller could tell what they begin with.
    pub fn new() -> Space {
        Space {
            table: [0; 65536],
            words: [0; 1027],
            entries: [0; 65539],
            left: [0; 65539],
        }
    }

    // Whether the transform answers as recorded.
    pub fn is_transformed(
        &mut self,
        flags: usize,
        bits: &[u8],
        recorded: &[u8],
        expected: Outcome,
    ) -> bool
        ensures { result ≡ transformed flags bits.now recorded.now expected }
    {
        let Space {
            table,
            words,
            left,
            ..
        } = self;
        there(flags, bits, recorded, table, words, left, expected)
    }

    // Whether the way back does.
    pub fn is_restored(
        &mut self,
        flags: usize,
        bits: &[u8],
        recorded: &[u8],
        expected: Outcome,
    ) -> bool
        ensures { result ≡ restored flags bits.now recorded.now expected }
    {
        let Space {
            words,
            entries,
            left,
            ..
        } = self;
        back(flags, bits, recorded, words, entries, left, expected)
    }
}

// Whether the library answers as recorded, in work space that the caller lends and keeps from table to table.
pub fn agrees(
    way: Way,
    flags: usize,
    bits: &[u8],
    recorded: &[u8],
    table: &mut [u64],
    words: &mut [u64],
    entries: &mut [u64],
    left: &mut [u64],
    expected: Outcome,
) -> bool
    requires { (2 ^ 16 ≤ length table.old) × (2 ^ 10 + 3 ≤ length words.old) × (2 ^ 16 + 3 ≤ length entries.old)
        × (2 ^ 16 + 3 ≤ length left.old) }
    ensures { result ≡ agreed way flags bits.now recorded.now expected }
{
    match way {
        Way::There => there(flags, bits, recorded, table, words, left, expected),
        Way::Back => back(flags, bits, recorded, words, entries, left, expected),
    }
}

// These two serve lent slices and the arrays of a `Space`, which they take one by one because parts of several fields, lent at once, get no proof.
// They stay two: a function of both would take every slice's length, what fills it, and the call.
fn there(
    flags: usize,
    bits: &[u8],
    recorded: &[u8],
    table: &mut [u64],
    words: &mut [u64],
    left: &mut [u64],
    expected: Outcome,
) -> bool
    requires { (2 ^ 16 ≤ length table.old) × (2 ^ 10 + 3 ≤ length words.old) × (2 ^ 10 + 3 ≤ length left.old) }
    ensures { result ≡ transformed flags bits.now recorded.now expected }
{
    let count = sizes::words(flags);
    let table = &mut table[..sizes::entries(flags)];
    let out = &mut words[..count + 3];
    let left = &mut left[..count + 3];
    set_table(table, bits);
    set_pattern(out, WORD);
    set_pattern(left, WORD);
    set_words(&mut left[..count], recorded);
    transforms_to(flags, table, out, expected, left)
}

fn back(
    flags: usize,
    bits: &[u8],
    recorded: &[u8],
    words: &mut [u64],
    entries: &mut [u64],
    left: &mut [u64],
    expected: Outcome,
) -> bool
    requires { (2 ^ 10 + 3 ≤ length words.old) × (2 ^ 16 + 3 ≤ length entries.old) × (2 ^ 16 + 3 ≤ length left.old) }
    ensures { result ≡ restored flags bits.now recorded.now expected }
{
    let count = sizes::words(flags);
    let settings = sizes::entries(flags);
    let words = &mut words[..count + 3];
    let out = &mut entries[..settings + 3];
    let left = &mut left[..settings + 3];
    set_pattern(words, WORD);
    set_words(&mut words[..count], recorded);
    set_pattern(out, WORD);
    set_pattern(left, WORD);
    set_bits(&mut left[..settings], bits);
    goes_back_to(flags, words, out, expected, left)
}
