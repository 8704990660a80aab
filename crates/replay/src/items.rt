// The items of a recorded file, compared one by one and counted: each is a head of a fixed size, and what the head says is after it. It rests on a
// recorded file, on the count and on the line that tells it.
ghost use Rattle.std.specs.Prelude.{◌<◌, ◌^◌, IfOk};
ghost use Rattle.replay.specs.Items.{Counted, Ends};

use crate::file::Opened;
use crate::{file, line};
use comparison::Tally;
use std::io;
use std::io::{AsBytes, Read};
use std::rt::Files;

// A proved loop has to end, and nothing says that a file does: more than any recorded file has.
const ITEMS: u32 = 1_000_000;

// A head that is cut short ends the file, and the count shows it. What an item lacks after its head counts as a difference. That an array of HEAD
// bytes can be made is asked here and below, because no type holds a const parameter's bound.
pub fn compared<const HEAD: usize, R: Read, F: FnMut(&mut R, &[u8]) -> io::Result<bool>>(
    file: &mut R,
    mut is_same: F,
) -> io::Result<Tally>
    requires size { HEAD < 2 ^ 63 }
    requires callable { F.IsAlwaysCallable is_same }
    ensures counted { IfOk result (λ tally. (behind : R) × (last : F)
        × Counted R.remaining F.FnMut HEAD file.old is_same tally behind last × Ends R.remaining F.FnMut HEAD tally behind) }
{
    let mut tally = Tally::default();
    for _ in 0..ITEMS {
        let mut head = [0u8; HEAD];
        if !file::fills(file, &mut head)? {
            break;
        }
        tally.count(is_same(file, &head)?);
    }
    Ok(tally)
}

// Opens a file, counts it, and prints its line. `kind` names what is counted.
pub fn replay<R: Files + Print + Eprint, F: FnOnce(&mut Opened<R::File>) -> io::Result<Tally>>(
    rt: &R,
    path: impl AsBytes + Drop,
    kind: impl AsBytes + Drop,
    count: F,
) -> io::Result<()>
    requires { F.IsAlwaysCallable count }
{
    let path = path.as_byte_slice();
    let mut opened = file::open(rt, path);
    let tally = count(&mut opened)?;
    line::print(rt, path, kind, tally)
}

// The same for a file of items. As `replay` with a closure it gets no proof (tried): the borrow checker covers no call that drops the test that the
// closure was given.
pub fn replay_items<
    const HEAD: usize,
    R: Files + Print + Eprint,
    F: FnMut(&mut Opened<R::File>, &[u8]) -> io::Result<bool>,
>(rt: &R, path: impl AsBytes + Drop, kind: impl AsBytes + Drop, is_same: F) -> io::Result<()>
    requires size { HEAD < 2 ^ 63 }
    requires callable { F.IsAlwaysCallable is_same }
{
    let path = path.as_byte_slice();
    let mut opened = file::open(rt, path);
    let tally = compared::<HEAD, Opened<R::File>, F>(&mut opened, is_same)?;
    line::print(rt, path, kind, tally)
}
