// The tables of at most four flags, as the files named small.bin have them: all of no flag, of one flag, and so on, each flag count's in the order of
// the number whose binary digits are the table. A file has of each what is recorded for it, a head of a fixed size, and what the head says is after
// it. It rests on a recorded file and on the count.
ghost use Rattle.std.specs.Prelude.{◌≡◌, ◌<◌, ◌^◌, IfOk};
ghost use Rattle.replay.specs.Tables.{Turns, Counted};

use crate::file;
use comparison::Tally;
use std::io;
use std::io::Read;

// How many tables there are of so many flags.
fn tables_of(flags: usize) -> u32
    requires { flags < 5 }
    ensures { result ≡ 2 ^ 2 ^ flags }
{
    1 << (1u32 << flags)
}

// The tables of `flags` flags, of which there are `count`. What the file lacks counts as a difference. `HEAD` is bounded for the reason in `items`.
fn count_tables<
    const HEAD: usize,
    R: Read,
    F: FnMut(&mut R, usize, &[u8], &[u8]) -> io::Result<bool>,
>(file: &mut R, flags: usize, count: u32, tally: &mut Tally, is_same: &mut F) -> io::Result<()>
    requires size { HEAD < 2 ^ 63 }
    requires callable { F.IsAlwaysCallable is_same.old }
    ensures callable { F.IsAlwaysCallable is_same.new }
    ensures counted { IfOk result (λ _. Turns R.remaining F.FnMut HEAD flags file.old is_same.old tally.old count tally.new file.new is_same.new) }
{
    // The number is no place in a slice: its bits are the table.
    for number in 0..count {
        let mut head = [0; HEAD];
        let is_whole = file::fills(file, &mut head)?;
        tally.count(is_whole && is_same(file, flags, &number.to_le_bytes(), &head)?);
    }
    Ok(())
}

// `is_same` is given the flag count, the table's bits and its head.
pub fn compared<
    const HEAD: usize,
    R: Read,
    F: FnMut(&mut R, usize, &[u8], &[u8]) -> io::Result<bool>,
>(file: &mut R, mut is_same: F) -> io::Result<Tally>
    requires size { HEAD < 2 ^ 63 }
    requires callable { F.IsAlwaysCallable is_same }
    ensures counted { IfOk result (λ tally. (behind : R) × (last : F)
        × Counted R.remaining F.FnMut HEAD file.old is_same 5 tally behind last) }
{
    let mut tally = Tally::default();
    // A flag count is no place in a slice either: it is given to the comparison.
    for flags in 0..5 {
        count_tables::<HEAD, R, F>(file, flags, tables_of(flags), &mut tally, &mut is_same)?;
    }
    Ok(tally)
}
