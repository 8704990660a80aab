// One recorded rule: its records, read from the file, and its table, as they are compared. The recorded answer has the cost, the raw cost and the
// number of records; the records come after it. It rests on recorded records, on the counting of small tables and on the comparison of one rule.
use comparison::Tally;
use recorded::numbers::{byte_at, pair_at};
use recorded::pattern::BYTE as PATTERN;
use recorded::sizes;
use recorded::slices::set_table;
use recorded_rules::one_rule::agrees;
use replay::{records, tables};
use rules::BYTE_LIMIT;
use std::io;
use std::io::Read;

// A sample's head has the flag count, the table's bits and the answer.
pub const SAMPLE_HEAD: usize = 15;

// Whether the library answers for the table with these bits as recorded.
fn is_same<R: Read>(file: &mut R, flags: usize, bits: &[u8], answer: &[u8]) -> io::Result<bool> {
    let Some(expression) = records::read(file, usize::from(pair_at(answer, 4)))? else {
        return Ok(false);
    };
    let length = expression.len();
    let settings = sizes::entries(flags);
    if length > BYTE_LIMIT || settings > 64 {
        return Ok(false);
    }
    let mut left = [PATTERN; BYTE_LIMIT];
    left[..length].copy_from_slice(&expression);
    let mut table = [0u64; 64];
    set_table(&mut table, bits);
    Ok(agrees(flags, &table[..settings], answer, &left, length))
}

pub fn small_tables<R: Read>(file: &mut R) -> io::Result<Tally> {
    tables::compared::<6, R, _>(file, |file, flags, bits, answer| {
        is_same(file, flags, bits, answer)
    })
}

pub fn is_same_sample<R: Read>(file: &mut R, head: &[u8]) -> io::Result<bool> {
    if head.len() < SAMPLE_HEAD {
        return Ok(false);
    }
    is_same(file, usize::from(byte_at(head, 0)), &head[1..9], &head[9..])
}
