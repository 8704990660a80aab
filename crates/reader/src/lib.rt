// The reader of an expression's records: at a place it answers the record that begins there, with the first byte of each operand. It reads the
// records from byte 0; `Reader::step` is the same for a walk over all of them, and `Reader::pass` keeps the first bytes of the operands so far
// (`keep`). It rests on `expr` for a record's mark, payload and operands.
#![tactic(auto)]

ghost use Rattle.std.specs.Prelude.{◌≡◌, ◌^◌, ◌≤◌, ◌<◌, length, get_or, set};
ghost use Rattle.rules.specs.Calls;
ghost use Rattle.rules.specs.Record.{operand_count};
ghost use Rattle.expr.specs.Answers.{kind_of, record_of};
ghost use Rattle.reader.specs.Answers.{node_of, reading_of};
ghost use Rattle.reader.specs.Inner.{node_over, start_at, begun};
ghost use Rattle.reader.specs.Passed.{IsReached, HasRoom, passed_over, started};

use expr::{Kind, Record};
use rules::{RECORD_LIMIT, Reason, Refusal, RuleFlags};

// A record that was read, the first byte of its first and of its second operand, 0 where there is none, and the place after it. The zeros are the
// documents' own answer (rules, Machine), and C's: an enum of operands would be turned back into them at both.
#[derive(Clone, Copy, Debug, PartialEq, Eq)]
pub struct Node {
    pub kind: Kind,
    pub first: usize,
    pub second: usize,
    pub next: usize,
}

// The record at a place, or none at or past the length of the bytes, which is the end.
pub fn read(flags: usize, bytes: &[u8], place: usize) -> Result<Option<Node>, Refusal>
    ensures { reading_of result ≡ Calls.read flags bytes.now place }
{
    find(RuleFlags::try_from(flags)?, bytes, place)
}

// The same past row 1: the records from byte 0 on, up to the place. A loop and no iterator: what a turn passes is where the next reads, and behind
// the last turn the reader is asked how far it is, and reads once more.
fn find(flags: RuleFlags, bytes: &[u8], place: usize) -> Result<Option<Node>, Refusal>
    ensures { reading_of result ≡ Calls.read flags.count bytes.now place }
{
    let mut starts = [0u16; RECORD_LIMIT];
    let mut reader = Reader::new(flags, bytes);
    while reader.place < place {
        let answer = reader.step(&starts);
        let Ok(Some(node)) = answer else {
            return answer;
        };
        reader.pass(node, &mut starts);
    }
    if place < reader.place {
        return Err(Reason::FewOperands.at(place));
    }
    reader.step(&starts)
}

// A walk over an expression's records, as far as it is: `count` records are read, up to byte `place`, and they leave `depth` operands. Beside it the
// walk lends an array of the operands' first bytes, the lowest operand's first. A record begins before byte 3 · 385, which fits 16 bits. With that
// array inside, in a copy of these functions that rustc compiled, each walk took 3 % more instructions and evaluation, which takes longer than the
// original's as it is, 10 % more time.
#[derive(Clone, Copy)]
pub struct Reader<'a> {
    pub flags: RuleFlags,
    pub bytes: &'a [u8],
    pub depth: usize,
    pub place: usize,
    pub count: usize,
}

impl<'a> Reader<'a> {
    // Before the first record.
    #[inline]
    pub fn new(flags: RuleFlags, bytes: &'a [u8]) -> Self
        ensures { result ≡ record { flags = flags; bytes = bytes.entry; depth = 0; place = 0; count = 0 } }
    {
        Reader {
            flags,
            bytes,
            depth: 0,
            place: 0,
            count: 0,
        }
    }

    // The reader's answer at the place of the walk.
    #[inline]
    pub fn step(&self, starts: &[u16]) -> Result<Option<Node>, Refusal>
        requires { IsReached self.now starts.now }
        ensures { reading_of result ≡ Calls.read self.now.flags.count self.now.bytes.now self.now.place }
    {
        if self.bytes.len() <= self.place {
            return Ok(None);
        }
        if RECORD_LIMIT <= self.count {
            return Err(Reason::ManyRecords.at(self.place));
        }
        let record = expr::record_at(self.flags.count, self.bytes, self.depth, self.place)?;
        Ok(Some(joined(record, starts, self.depth)))
    }

    // One record more, which begins at the place.
    #[inline]
    pub fn pass(&mut self, node: Node, starts: &mut [u16])
        requires { HasRoom self.old starts.old (node_of node) }
        ensures reader { self.new ≡ passed_over self.old (node_of node) }
        ensures starts { starts.new ≡ started self.old starts.old (node_of node) }
    {
        let base = self.depth - node.kind.arity();
        keep(node.kind, starts, base, self.place);
        self.depth = base + 1;
        self.place = node.next;
        self.count += 1;
    }
}

// A record with where the operands that it takes begin.
#[inline]
fn joined(read: Record, starts: &[u16], depth: usize) -> Node
    requires { (operand_count (kind_of read.kind) ≤ depth) × (depth ≤ length starts.now) }
    ensures { node_of result ≡ node_over (record_of read) starts.now depth }
{
    let kind = read.kind;
    let base = depth - kind.arity();
    Node {
        kind,
        first: start(starts, depth, base),
        second: start(starts, depth, base + 1),
        next: read.next,
    }
}

// Where an operand begins, 0 for one that is not there.
#[inline]
fn start(starts: &[u16], depth: usize, i: usize) -> usize
    requires { depth ≤ length starts.now }
    ensures { result ≡ start_at starts.now depth i }
{
    if i < depth {
        return starts[i] as usize;
    }
    0
}

// Keeps where the operand that a record leaves begins: with its first operand, which is kept there already, or with the record itself.
#[inline]
pub fn keep(kind: Kind, starts: &mut [u16], base: usize, place: usize)
    requires { (base < length starts.old) × (place < 2 ^ 16) }
    ensures { starts.new ≡ set starts.old base (begun (kind_of kind) place (get_or starts.old base 0)) }
{
    if kind.arity() == 0 {
        starts[base] = place as u16;
    }
}
