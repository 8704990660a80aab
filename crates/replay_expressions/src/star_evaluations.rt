// One evaluation of stars.bin, read: the head, and after it the words of the flags and the expression. It rests on the parts of a recorded file and
// on the comparison of a recorded evaluation for 64 stars.
use recorded::numbers::{byte_at, pair_at};
use recorded_stars::agrees;
use replay::file;
use replay::file::PART_BYTES;
use std::io;
use std::io::Read;

pub const HEAD: usize = 20;

pub fn is_same<R: Read>(file: &mut R, head: &[u8]) -> io::Result<bool> {
    let size = 8 * usize::from(byte_at(head, 8));
    let length = usize::from(pair_at(head, 9));
    // Where the expression is longer than a part, nothing is read.
    if length > PART_BYTES {
        return Ok(false);
    }
    let mut words = [0; PART_BYTES];
    let mut bytes = [0; PART_BYTES];
    let Some(words) = file::lent(file, size, &mut words)? else {
        return Ok(false);
    };
    let Some(bytes) = file::lent(file, length, &mut bytes)? else {
        return Ok(false);
    };
    Ok(agrees(head, words, bytes))
}
