// One reading of a package: how much of the package is handed in, the byte of it that is changed, the place asked, and the answer that the documents
// give. It rests on the package's reader; the promise says that what is compared is the call on paper that the head's bytes ask.
ghost use Rattle.std.specs.Prelude.{◌≡◌};
ghost use Rattle.bits.specs.Range.{same};
ghost use Rattle.package_reader.specs.Answers.{rule_reading_of};
ghost use Rattle.rule_package.specs.Calls.{read_rule};
ghost use Rattle.recorded.specs.Numbers.{word_at};
ghost use Rattle.recorded_packages.specs.Readings.{numbers_of, numbers_at, reading_agrees};

use package_reader::{RuleAt, read_rule};
use recorded::numbers::{byte_at, half_at, pair_at, word_at};
use rules::Refusal;

fn recorded(head: &[u8]) -> [u64; 7]
    ensures { result ≡ numbers_at head.now }
{
    [
        u64::from(byte_at(head, 17)),
        u64::from(byte_at(head, 18)),
        u64::from(byte_at(head, 19)),
        word_at(head, 20),
        u64::from(half_at(head, 28)),
        u64::from(pair_at(head, 32)),
        u64::from(half_at(head, 34)),
    ]
}

// The file's numbers for it: kind, refusal, flag count, table, start, length, and the next place or that of a refusal.
fn numbers(reading: Result<Option<RuleAt>, Refusal>) -> [u64; 7]
    ensures { result ≡ numbers_of (rule_reading_of reading) }
{
    match reading {
        Ok(None) => [0; 7],
        Ok(Some(rule)) => [
            1,
            0,
            rule.flags.count as u64,
            rule.table,
            rule.start as u64,
            rule.length as u64,
            rule.next as u64,
        ],
        Err(refusal) => [2, refusal.number(), 0, 0, 0, 0, refusal.place as u64],
    }
}

// What is handed in, asked at the head's place.
fn asked(head: &[u8], bytes: &[u8]) -> bool
    ensures { result ≡ same (numbers_of (read_rule bytes.now (word_at head.now 9))) (numbers_at head.now) }
{
    let reading = read_rule(bytes, word_at(head, 9) as usize);
    numbers(reading) == recorded(head)
}

// The byte that is changed is put back, so that one package serves many readings.
pub fn agrees(head: &[u8], bytes: &mut [u8]) -> bool
    ensures answer { result ≡ reading_agrees head.now bytes.old }
    ensures lent { bytes.new ≡ bytes.old }
{
    let handed = half_at(head, 0) as usize;
    let at = half_at(head, 4) as usize;
    if handed > bytes.len() {
        return false;
    }
    if at >= bytes.len() {
        return asked(head, &bytes[..handed]);
    }
    let byte = bytes[at];
    bytes[at] = byte_at(head, 8);
    let is_same = asked(head, &bytes[..handed]);
    bytes[at] = byte;
    is_same
}
