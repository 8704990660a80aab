// A recorded file, opened and read. It rests on std's files, on fronts of files and on the library's `arrayvec`.
// A file that cannot be opened reads as an empty one, so that its line shows that nothing was compared. A read or a write that
// fails ends the replay with its error.
ghost use Rattle.std.specs.Prelude.{◌≡◌, ◌<◌, ◌^◌, ◌+◌, ◌++◌, ◌⊎◌, IfNone, IfOk, IfSome, IsTrue, length};
ghost use Rattle.std.specs.Io.KnownBytes.{Consumes, IsAtEnd};
ghost use Rattle.replay.specs.Files.{opened};

use arrayvec::ArrayVec;
use std::io::{AsBytes, Read};
use std::rt::Files;
use std::{fs, io};

// More than any part of an item has that a head gives the length of, but for lists of masks.
pub const PART_BYTES: usize = 2048;

// A file that was opened, or the empty one that stands for it.
#[derive(Drop)]
pub struct Opened<F> {
    file: Option<F>,
}

impl<F> Opened<F> {
    pub(crate) fn is_open(&self) -> bool {
        self.file.is_some()
    }
}

impl<F: Read> Read for Opened<F> {
    ghost remaining = { opened F.remaining };

    fn read(&mut self, buf: &mut [u8]) -> io::Result<usize> {
        match &mut self.file {
            Some(file) => file.read(buf),
            None => Ok(0),
        }
    }
}

// A file that cannot be opened is complained of on standard error, where a complaint that cannot be written is lost. What is in a file, and whether
// it can be opened, no contract can say.
pub fn open<R: Files + Eprint>(rt: &R, path: impl AsBytes + Drop) -> Opened<R::File> {
    let Ok(name) = str::from_utf8(path.as_byte_slice()) else {
        let _ = eprintln!(rt; "the name of a file is no text");
        return Opened { file: None };
    };
    match fs::open(rt, name) {
        Ok(file) => Opened { file: Some(file) },
        Err(e) => {
            let _ = eprintln!(rt; "{name}: {e}");
            Opened { file: None }
        }
    }
}

// Whether the file's next bytes fill the buffer.
pub fn fills<R: Read>(file: &mut R, buffer: &mut [u8]) -> io::Result<bool>
    ensures filled { IfOk result (λ b. IsTrue b → Consumes (R.remaining file.old) (R.remaining file.new) buffer.new) }
    ensures short { IfOk result (λ b. ¬ (IsTrue b) → IsAtEnd (R.remaining file.new)) }
    ensures few { IfOk result (λ b. ¬ (IsTrue b) → IfSome (R.remaining file.old) (λ bytes. length bytes < length buffer.old)) }
{
    Ok(fronts::read(file, buffer)? == buffer.len())
}

// The file's next `size` bytes, at the front of a lent buffer, where the file has so many and the buffer the room. Who reads a part for each of many
// items lends the buffer: the vector of `part` takes as long as its capacity, whatever its size, and more than once.
pub fn lent<'a, R: Read>(
    file: &mut R,
    size: usize,
    buffer: &'a mut [u8],
) -> io::Result<Option<&'a [u8]>>
    ensures whole { IfOk result (λ found. IfSome found (λ bytes. (length bytes.now ≡ size)
        × Consumes (R.remaining file.old) (R.remaining file.new) bytes.now)) }
    ensures lacking { IfOk result (λ found. IfNone found ((length buffer.old < size)
        ⊎ IfSome (R.remaining file.old) (λ bytes. length bytes < size))) }
{
    if size > buffer.len() {
        return Ok(None);
    }
    let front = &mut buffer[..size];
    if !fills(file, front)? {
        return Ok(None);
    }
    Ok(Some(front))
}

// The file's next `size` bytes, where it has so many and that is at most MOST. Here and below MOST is bounded, because no type holds a const
// parameter's bound.
pub fn part<const MOST: usize, R: Read>(
    file: &mut R,
    size: usize,
) -> io::Result<Option<ArrayVec<u8, MOST>>>
    requires { MOST < 2 ^ 63 }
    ensures whole { IfOk result (λ found. IfSome found (λ bytes. (length bytes.items ≡ size)
        × Consumes (R.remaining file.old) (R.remaining file.new) bytes.items)) }
    ensures lacking { IfOk result (λ found. IfNone found ((MOST < size) ⊎ IfSome (R.remaining file.old) (λ bytes. length bytes < size))) }
{
    if size > MOST {
        return Ok(None);
    }
    let mut bytes = [0; MOST];
    if !fills(file, &mut bytes[..size])? {
        return Ok(None);
    }
    let mut part = ArrayVec::from_array_in((), bytes);
    part.truncate(size);
    Ok(Some(part))
}

// The next two parts, one after the other. Where either is to have more bytes than MOST, nothing is read.
pub fn two_parts<const MOST: usize, R: Read>(
    file: &mut R,
    first: usize,
    second: usize,
) -> io::Result<Option<(ArrayVec<u8, MOST>, ArrayVec<u8, MOST>)>>
    requires { MOST < 2 ^ 63 }
    ensures whole { IfOk result (λ found. IfSome found (λ parts. (length parts.0.items ≡ first) × (length parts.1.items ≡ second)
        × Consumes (R.remaining file.old) (R.remaining file.new) (parts.0.items ++ parts.1.items))) }
    ensures lacking { IfOk result (λ found. IfNone found ((MOST < first) ⊎ ((MOST < second)
        ⊎ IfSome (R.remaining file.old) (λ bytes. length bytes < first + second)))) }
{
    if second > MOST {
        return Ok(None);
    }
    let Some(front) = part::<MOST, R>(file, first)? else {
        return Ok(None);
    };
    let Some(rest) = part::<MOST, R>(file, second)? else {
        return Ok(None);
    };
    Ok(Some((front, rest)))
}
