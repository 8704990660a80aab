// A rule in the printed notation, as it is read: the expression whose records a line has, and the record of a place. It rests on the parts of a line
// (parts).
ghost use Rattle.std.specs.Prelude.{true, false, ◌≡◌, ◌+◌, ◌++◌, ◌≤◌, IfSome, IfNone, length};
ghost use Rattle.bits.specs.Range.{all};
ghost use Rattle.examination_text.specs.Input.{longest};
ghost use Rattle.examination_text.specs.Notation.{is_record, record_texts, record_bytes, expression, record_of};

use crate::LONGEST;
use crate::parts::Parts;
use arrayvec::ArrayVec;

// The bytes of an expression that stands in a line.
pub type Bytes = ArrayVec<u8, LONGEST>;

// Whether the text is a record in the notation.
fn is_record(text: &[u8]) -> bool
    ensures { result ≡ is_record text.now }
{
    let Some((mark, payload)) = text.split_at_checked(2) else {
        return false;
    };
    if 1 < payload.len() {
        return false;
    }
    mark.iter().all(|byte| byte.is_ascii_uppercase())
        && payload.iter().all(|byte| byte.is_ascii_digit())
}

// A record's bytes.
fn push_record(bytes: &mut Bytes, text: &[u8])
    requires { (is_record text.now ≡ true) × (length bytes.old.items + length (record_bytes text.now) ≤ longest) }
    ensures { bytes.new.items ≡ bytes.old.items ++ record_bytes text.now }
{
    bytes.push(text[0]);
    bytes.push(text[1]);
    if text.len() == 3 {
        bytes.push(text[2] - b'0');
    }
}

// The expression's bytes, if the line is records with one space between two.
pub fn expression(line: &[u8]) -> Option<Bytes>
    requires { length line.now ≤ longest }
    ensures some { IfSome result (λ bytes. (all is_record (record_texts line.now) ≡ true) × (bytes.items ≡ expression (record_texts line.now))) }
    ensures none { IfNone result (all is_record (record_texts line.now) ≡ false) }
{
    let mut bytes = Bytes::new();
    for text in Parts::records(line) {
        if !is_record(text) {
            return None;
        }
        push_record(&mut bytes, text);
    }
    Some(bytes)
}

// The number of the record in whose bytes the place lies.
pub fn record_number(line: &[u8], place: usize) -> usize
    ensures { result ≡ record_of (record_texts line.now) place }
{
    let mut left = place;
    let mut number = 0;
    // The count of all is an answer too, for which `enumerate` would want the parts a second time.
    for text in Parts::records(line) {
        number += 1;
        if left < text.len() {
            return number;
        }
        left -= text.len();
    }
    number
}
