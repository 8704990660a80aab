// One writing of writings.bin, read: the head, and after it the expression and what the lent buffer must hold afterwards. It rests on the parts of a
// recorded file and on the comparison of a recorded writing.
use recorded::numbers::pair_at;
use recorded_packages::writings::agrees;
use replay::file;
use replay::file::PART_BYTES;
use std::io;
use std::io::Read;

pub const HEAD: usize = 23;

pub fn is_same<R: Read>(file: &mut R, head: &[u8]) -> io::Result<bool> {
    let length = usize::from(pair_at(head, 16));
    let room = usize::from(pair_at(head, 18));
    // Where either is longer than a part, nothing is read.
    if room > PART_BYTES {
        return Ok(false);
    }
    let mut expression = [0; PART_BYTES];
    let mut after = [0; PART_BYTES];
    let Some(expression) = file::lent(file, length, &mut expression)? else {
        return Ok(false);
    };
    let Some(after) = file::lent(file, room, &mut after)? else {
        return Ok(false);
    };
    Ok(agrees(head, expression, after))
}
