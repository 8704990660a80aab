// One expression of costs.bin, read: the head and the records after it. It rests on recorded records and on the comparison of recorded costs.
use recorded::numbers::pair_at;
use recorded_expressions::costs::agrees;
use replay::records;
use std::io;
use std::io::Read;

pub const HEAD: usize = 8;

pub fn is_same<R: Read>(file: &mut R, head: &[u8]) -> io::Result<bool> {
    let Some(bytes) = records::read(file, usize::from(pair_at(head, 6)))? else {
        return Ok(false);
    };
    Ok(agrees(head, &bytes))
}
