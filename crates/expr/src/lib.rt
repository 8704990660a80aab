// Records of an expression's bytes, after `expr.rs`: what a record is, and which one begins at a place by its mark, its payload and the number of
// operands before it. It rests on the definitions of `rules`.
#![tactic(auto)]

ghost use Rattle.std.specs.Prelude.{◌≡◌, ◌+◌, ◌*◌, ◌<◌, length};
ghost use Rattle.rules.specs.Record.{operand_count};
ghost use Rattle.expr.specs.Answers.{found_of, kind_of};
ghost use Rattle.expr.specs.Inner.{or_of, record_over, operator_at, constant_at, flag_at};

use rules::{Reason, Refusal};

// The marks: two letters as one number. A `match` over the letters themselves, as a slice, was proved, and costing at four flags took 116 ns with it,
// longer than the original's 114, where by a `match` over these numbers it took 101 beside the original's 107.
const CO: u16 = (b'C' as u16) << 8 | b'O' as u16;

const VA: u16 = (b'V' as u16) << 8 | b'A' as u16;

const AN: u16 = (b'A' as u16) << 8 | b'N' as u16;

const OR: u16 = (b'O' as u16) << 8 | b'R' as u16;

const XO: u16 = (b'X' as u16) << 8 | b'O' as u16;

const NO: u16 = (b'N' as u16) << 8 | b'O' as u16;

// What a record is, with its payload.
#[derive(Clone, Copy, Debug, PartialEq, Eq)]
pub enum Kind {
    Constant(bool),
    Variable(u8),
    And,
    Or,
    Xor,
    Not,
}

// A record, and the place after it.
#[derive(Clone, Copy, Debug, PartialEq, Eq)]
pub struct Record {
    pub kind: Kind,
    pub next: usize,
}

impl Kind {
    // How many operands a record takes from the stack.
    #[inline]
    pub fn arity(self) -> usize
        ensures { result ≡ operand_count (kind_of self) }
    {
        match self {
            Kind::Constant(_) | Kind::Variable(_) => 0,
            Kind::Not => 1,
            Kind::And | Kind::Or | Kind::Xor => 2,
        }
    }

    // Whether a record is an OR.
    #[inline]
    pub fn is_or(self) -> bool
        ensures { result ≡ or_of (kind_of self) }
    {
        matches!(self, Kind::Or)
    }
}

// The record that begins at a place before the end of the bytes, where so many operands are left by the records before it. What its arms share is
// made before them, so that the whole is small enough to be inlined into every walk (docs/DECISIONS.md).
#[inline]
pub fn record_at(flags: usize, bytes: &[u8], depth: usize, place: usize) -> Result<Record, Refusal>
    requires { place < length bytes.now }
    ensures { found_of result ≡ record_over flags bytes.now depth place }
{
    let left = bytes.len() - place;
    if left < 2 {
        return Err(Reason::BadMark.at(place));
    }
    let next = place + 2;
    let none = depth < 1;
    let few = depth < 2;
    match u16::from_be_bytes([bytes[place], bytes[place + 1]]) {
        CO => constant(bytes, place, left),
        VA => variable(flags, bytes, place, left),
        AN => operator(Kind::And, few, place, next),
        OR => operator(Kind::Or, few, place, next),
        XO => operator(Kind::Xor, few, place, next),
        NO => operator(Kind::Not, none, place, next),
        _ => Err(Reason::BadMark.at(place)),
    }
}

// An operator's record, which is refused where its operands are too few.
#[inline]
fn operator(kind: Kind, few: bool, place: usize, next: usize) -> Result<Record, Refusal>
    ensures { found_of result ≡ operator_at (kind_of kind) few place next }
{
    if few {
        return Err(Reason::FewOperands.at(place));
    }
    Ok(Record { kind, next })
}

// A constant's record: the payload is 0 or 1. One function for it and for a flag's was proved in six forms: 64 stars of six flags take 402 to 447 ns
// with them, where they take 385 to 392 with these two.
#[inline]
fn constant(bytes: &[u8], place: usize, left: usize) -> Result<Record, Refusal>
    requires { place + left ≡ length bytes.now }
    ensures { found_of result ≡ constant_at bytes.now place }
{
    if left < 3 {
        return Err(Reason::BadPayload.at(place));
    }
    let payload = bytes[place + 2];
    match payload {
        0..=1 => Ok(Record {
            kind: Kind::Constant(payload == 1),
            next: place + 3,
        }),
        _ => Err(Reason::BadPayload.at(place)),
    }
}

// A flag's record: the payload is an index below the flag count.
#[inline]
fn variable(flags: usize, bytes: &[u8], place: usize, left: usize) -> Result<Record, Refusal>
    requires { place + left ≡ length bytes.now }
    ensures { found_of result ≡ flag_at flags bytes.now place }
{
    if left < 3 {
        return Err(Reason::BadPayload.at(place));
    }
    let payload = bytes[place + 2];
    if (payload as usize) < flags {
        return Ok(Record {
            kind: Kind::Variable(payload),
            next: place + 3,
        });
    }
    Err(Reason::BadPayload.at(place))
}
