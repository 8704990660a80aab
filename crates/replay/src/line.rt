// The line that tells what was compared. It rests on std's printing, of which no contract says what it writes.
use comparison::Tally;
use std::io;
use std::io::AsBytes;

// `kind` names what was counted.
pub fn print<R: Print>(
    rt: &R,
    name: impl AsBytes + Drop,
    kind: impl AsBytes + Drop,
    tally: Tally,
) -> io::Result<()> {
    rt.write_all(name.as_byte_slice())?;
    print!(rt; ": {} ", tally.compared)?;
    rt.write_all(kind.as_byte_slice())?;
    print!(rt; ", {} differences", tally.differences)?;
    if let Some(first) = tally.first {
        print!(rt; ", the first is number {first}")?;
    }
    println!(rt)
}
