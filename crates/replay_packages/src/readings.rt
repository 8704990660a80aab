// The readings of one package, read: the package's length and bytes, and a head for each reading. It rests on the parts and items of a recorded file
// and on the comparison of a recorded reading.
use comparison::Tally;
use recorded::numbers::half_at;
use recorded_packages::readings::agrees;
use replay::{file, items};
use std::io;
use std::io::Read;

// More than any recorded package has.
const PACKAGE_BYTES: usize = 70000;

const HEAD: usize = 38;

// A package that is cut short or too long compares nothing, and the count shows it.
pub fn compared<R: Read>(file: &mut R) -> io::Result<Tally> {
    let mut size = [0; 4];
    file::fills(file, &mut size)?;
    let size = half_at(&size, 0) as usize;
    let mut package = [0; PACKAGE_BYTES];
    if size > PACKAGE_BYTES {
        return Ok(Tally::default());
    }
    let package = &mut package[..size];
    if !file::fills(file, package)? {
        return Ok(Tally::default());
    }
    items::compared::<HEAD, R, _>(file, |_, head| Ok(agrees(head, package)))
}
