// One pair of choices.bin, read: the head and, where the pair is of two expressions, the records of both. It rests on recorded
// records and on the comparison of a recorded choice.
use recorded::numbers::{byte_at, pair_at};
use recorded_expressions::choices::{chooses, compares};
use replay::records;
use std::io;
use std::io::Read;

pub const HEAD: usize = 21;

// The expressions after the head, of so many records, and which of the two is to be chosen. Both are read before either is looked at, so that the
// next pair begins behind this one also where the first has more records than an expression may.
fn is_chosen<R: Read>(file: &mut R, one: usize, other: usize, chosen: usize) -> io::Result<bool> {
    let first = records::read(file, one)?;
    let second = records::read(file, other)?;
    let (Some(first), Some(second)) = (first, second) else {
        return Ok(false);
    };
    Ok(chooses(&first, &second, chosen))
}

pub fn is_same<R: Read>(file: &mut R, head: &[u8]) -> io::Result<bool> {
    if !compares(head) {
        return Ok(false);
    }
    let one = usize::from(pair_at(head, 17));
    let other = usize::from(pair_at(head, 19));
    // The file has 0 records where the pair is of no expressions.
    if one == 0 {
        return Ok(true);
    }
    is_chosen(file, one, other, 1 + usize::from(byte_at(head, 16)))
}
