// An expression as the recorded files hold it, four bits a record: 0 and 1 are CO 0 and CO 1, 2 to 9 are VA 0 to VA 7,
// then AN, OR, XO and NO; two records a byte, the earlier low. It rests on a recorded file, on the library's `arrayvec` and on the limit of records.
ghost use Rattle.std.specs.Prelude.{◌≡◌, ◌<◌, ◌≤◌, ◌⊎◌, IfNone, IfOk, IfSome, List, ℕ, length};
ghost use Rattle.std.specs.Int.{div_ceil};
ghost use Rattle.std.specs.Io.KnownBytes.{Consumes};
ghost use Rattle.rules.specs.Limits.{record_limit};
ghost use Rattle.replay.specs.Records.{code_at, record_of, expression};

use crate::file;
use arrayvec::ArrayVec;
use recorded::numbers::byte_at;
use rules::RECORD_LIMIT;
use std::io;
use std::io::Read;

// The bytes of any expression: it has at most so many records, and a record has at most three bytes.
pub const EXPRESSION_BYTES: usize = 3 * RECORD_LIMIT;

// The bytes that a file has for them, at four bits a record.
const CODE_BYTES: usize = (RECORD_LIMIT + 1) / 2;

// A record's bytes by its code. The last two codes are no record's.
fn record_of(code: u8) -> &'static [u8]
    ensures { result.now ≡ record_of code }
{
    match code {
        0 => b"CO\x00",
        1 => b"CO\x01",
        2 => b"VA\x00",
        3 => b"VA\x01",
        4 => b"VA\x02",
        5 => b"VA\x03",
        6 => b"VA\x04",
        7 => b"VA\x05",
        8 => b"VA\x06",
        9 => b"VA\x07",
        10 => b"AN",
        11 => b"OR",
        12 => b"XO",
        13 => b"NO",
        _ => b"??",
    }
}

fn code_at(codes: &[u8], i: usize) -> u8
    ensures { result ≡ code_at codes.now i }
{
    (byte_at(codes, i / 2) >> (4 * (i % 2))) % 16
}

// By number: a byte has two records, so that an iterator of them would halve the number too.
fn expand(codes: &[u8], records: usize) -> ArrayVec<u8, EXPRESSION_BYTES>
    requires { records ≤ record_limit }
    ensures { result.items ≡ expression codes.now records }
{
    let mut bytes = ArrayVec::new();
    for i in 0..records {
        let _ = bytes.try_extend_from_slice(record_of(code_at(codes, i)));
    }
    bytes
}

// The file's next expression, of so many records, where the file has them and an expression may.
pub fn read<R: Read>(
    file: &mut R,
    records: usize,
) -> io::Result<Option<ArrayVec<u8, EXPRESSION_BYTES>>>
    ensures whole { IfOk result (λ found. IfSome found (λ bytes. (records ≤ record_limit)
        × (codes : List ℕ) × (length codes ≡ div_ceil records 2) × Consumes (R.remaining file.old) (R.remaining file.new) codes
        × (bytes.items ≡ expression codes records))) }
    ensures lacking { IfOk result (λ found. IfNone found ((record_limit < records)
        ⊎ IfSome (R.remaining file.old) (λ bytes. length bytes < div_ceil records 2))) }
{
    if records > RECORD_LIMIT {
        return Ok(None);
    }
    let codes = file::part::<CODE_BYTES, R>(file, records.div_ceil(2))?;
    Ok(codes.map(|codes| expand(codes.as_slice(), records)))
}
