// One form of listings.bin, read: the head, and after it the coefficients and the original's list. It rests on the parts of a recorded file and on
// the comparison of a recorded form.
use recorded::numbers::{byte_at, pair_at};
use recorded::sizes;
use recorded_listings::{Asked, agrees_form};
use replay::file;
use std::io;
use std::io::Read;

pub const HEAD: usize = 4;

// The bytes of the most coefficients, and of the most masks that a head can tell.
const COEFFICIENT_BYTES: usize = 8192;

const MASK_BYTES: usize = 131072;

pub fn is_same<R: Read>(file: &mut R, head: &[u8], asked: Asked) -> io::Result<bool> {
    let flags = usize::from(byte_at(head, 0));
    let size = 2 * usize::from(pair_at(head, 2));
    let mut bytes = [0; COEFFICIENT_BYTES];
    let mut masks = [0; MASK_BYTES];
    let Some(bytes) = file::lent(file, sizes::bytes(flags), &mut bytes)? else {
        return Ok(false);
    };
    let Some(masks) = file::lent(file, size, &mut masks)? else {
        return Ok(false);
    };
    Ok(agrees_form(flags, bytes, head, masks, asked))
}
