// A program run on each file that data/names lists, a line each, in that order, with the file's name written before what the program writes. It
// rests on std's printing, of which no contract says what it writes, and on the opening of a file.
use crate::file;
use crate::file::Opened;
use std::io;
use std::rt::Files;

// More than any list has.
const LIST_BYTES: usize = 4096;

// A file that cannot be opened is complained of and not named, so that it shows as a difference.
pub fn run_each<R: Files + Print + Eprint, F: FnMut(&mut Opened<R::File>) -> io::Result<()>>(
    rt: &R,
    mut run: F,
) -> io::Result<()>
    requires { F.IsAlwaysCallable run }
{
    let mut list = [0; LIST_BYTES];
    let length = fronts::read(&mut file::open(rt, "names"), &mut list)?;
    for line in list[..length].split_inclusive(|byte| *byte == b'\n') {
        let name = line.strip_suffix(b"\n").unwrap_or(line);
        let mut opened = file::open(rt, name);
        if opened.is_open() {
            rt.write_all(name)?;
            println!(rt)?;
        }
        run(&mut opened)?;
    }
    Ok(())
}
