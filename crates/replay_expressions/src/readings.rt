// One reading of readings.bin, read: the head, and the expression after it. It rests on the parts of a recorded file and on the comparison of a
// recorded reading.
use recorded::numbers::pair_at;
use recorded_readings::agrees;
use replay::file;
use replay::file::PART_BYTES;
use std::io;
use std::io::Read;

pub const HEAD: usize = 27;

pub fn is_same<R: Read>(file: &mut R, head: &[u8]) -> io::Result<bool> {
    let mut bytes = [0; PART_BYTES];
    let Some(bytes) = file::lent(file, usize::from(pair_at(head, 16)), &mut bytes)? else {
        return Ok(false);
    };
    Ok(agrees(head, bytes))
}
