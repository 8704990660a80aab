// One case of cases.bin, read: the head, and the two expressions after it, of which either may be empty. It rests on the parts of a recorded file and
// on the comparison of a recorded case.
use recorded::numbers::pair_at;
use recorded_expressions::cases::agrees;
use replay::file;
use replay::file::PART_BYTES;
use replay::refusals::Wrong;
use std::io;
use std::io::Read;

pub const HEAD: usize = 38;

pub fn is_same<R: Read>(file: &mut R, head: &[u8], wrong: Wrong) -> io::Result<bool> {
    let one = usize::from(pair_at(head, 27));
    let other = usize::from(pair_at(head, 29));
    // Where either is longer than a part, nothing is read.
    if other > PART_BYTES {
        return Ok(false);
    }
    let mut first = [0; PART_BYTES];
    let mut second = [0; PART_BYTES];
    let Some(first) = file::lent(file, one, &mut first)? else {
        return Ok(false);
    };
    let Some(second) = file::lent(file, other, &mut second)? else {
        return Ok(false);
    };
    // By what the outcome's number, and its first result, are changed. A refusal's place is its first result.
    let (number, res) = match wrong {
        Wrong::Nothing => (0, 0),
        Wrong::Number => (1, 0),
        Wrong::Place => (0, 1),
    };
    Ok(agrees(head, first, second, number, res))
}
