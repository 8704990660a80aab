// The tables of a recorded file, compared one way. It rests on the parts and items of a recorded file and on the comparison of one table.
use comparison::{Outcome, Tally};
use recorded::numbers::byte_at;
use recorded::sizes;
use recorded_transforms::one_table::Space;
use replay::{file, items, tables};
use std::io;
use std::io::Read;

// The bytes of the largest table.
const TABLE_BYTES: usize = 8192;

// Which call is replayed: the transform, or the way back. A closure in its place was tried: of the closures below, which would call it, the check
// asks that it can be called with any value, and that didn't close.
pub trait Way {
    fn agrees(space: &mut Space, flags: usize, bits: &[u8], recorded: &[u8]) -> bool;
}

#[derive(Clone, Copy)]
pub struct There;

#[derive(Clone, Copy)]
pub struct Back;

// How many entries the call must tell: words there, and entries back, so that the one call cannot stand for the other.
impl Way for There {
    fn agrees(space: &mut Space, flags: usize, bits: &[u8], recorded: &[u8]) -> bool {
        let expected = Outcome::one(sizes::words(flags));
        space.is_transformed(flags, bits, recorded, expected)
    }
}

impl Way for Back {
    fn agrees(space: &mut Space, flags: usize, bits: &[u8], recorded: &[u8]) -> bool {
        let expected = Outcome::one(sizes::entries(flags));
        space.is_restored(flags, bits, recorded, expected)
    }
}

// A table of small.bin has its coefficients in two bytes.
pub fn small_tables<W: Way, R: Read>(file: &mut R) -> io::Result<Tally> {
    let mut space = Space::new();
    tables::compared::<2, R, _>(file, |_, flags, bits, recorded| {
        Ok(W::agrees(&mut space, flags, bits, recorded))
    })
}

// A sample has, after its flag count, the table's bits and the coefficients.
fn is_same_sample<W: Way, R: Read>(
    file: &mut R,
    space: &mut Space,
    flags: usize,
) -> io::Result<bool> {
    let size = sizes::bytes(flags);
    let mut bits = [0; TABLE_BYTES];
    let mut recorded = [0; TABLE_BYTES];
    let Some(bits) = file::lent(file, size, &mut bits)? else {
        return Ok(false);
    };
    let Some(recorded) = file::lent(file, size, &mut recorded)? else {
        return Ok(false);
    };
    Ok(W::agrees(space, flags, bits, recorded))
}

pub fn samples<W: Way, R: Read>(file: &mut R) -> io::Result<Tally> {
    let mut space = Space::new();
    items::compared::<1, R, _>(file, |file, head| {
        is_same_sample::<W, R>(file, &mut space, usize::from(byte_at(head, 0)))
    })
}
