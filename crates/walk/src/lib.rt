// A walk over an expression's records, from the first to the last, that makes of each record a value from the values of its operands: the value of
// the whole in any domain, the number of records, and their cost. It rests on `reader`.
#![tactic(auto)]

ghost use Rattle.std.specs.Prelude.{◌≡◌, ◌+◌, ◌-◌, ◌≤◌, ◌<◌, ℕ};
ghost use Rattle.rules.specs.Limits.{record_limit};
ghost use Rattle.rules.specs.Outcome.{gives};
ghost use Rattle.rules.specs.Tree.{Tree};
ghost use Rattle.expr.specs.Answers.{kind_of};
ghost use Rattle.reader.specs.Inner.{ended, Within, join};
ghost use Rattle.walk.specs.Small.{Small};
ghost use Rattle.walk.specs.Walked.{Applied, walked, walked_of, attempt_of};

use expr::Kind;
use reader::Reader;
use rules::{RECORD_LIMIT, Reason, Refusal, RuleFlags};

// The entries of a stack that most expressions do not fill, and of one that none fills: no more operands than records stand on it.
const SHORT: usize = 24;

const DEEP: usize = RECORD_LIMIT + 1;

// What the trees of so many flags mean in a domain, record by record.
pub trait Values {
    type Value: Copy + Default;

    ghost flag_count: { Self → ℕ };

    ghost value: { Self → Tree → Self.Value };

    fn flags(&self) -> RuleFlags
        ensures { result.count ≡ flag_count self.now };

    // The value of a record from those of its operands, of which it uses as many as it has. The operands' trees have few enough records.
    fn apply(&self, kind: Kind, first: Self::Value, second: Self::Value) -> Self::Value
        requires { (x : Tree) × (y : Tree) × Applied (value self.now) (flag_count self.now) (kind_of kind) first second x y }
        ensures { (x y : Tree) → Applied (value self.now) (flag_count self.now) (kind_of kind) first second x y
            → result ≡ value self.now (join (kind_of kind) x y) };

    // A stack of values has its place in memory.
    ghost small: { Small Self.Value.row };
}

// The value of an expression, the number of its records, and its cost: that number, less one for each OR whose first operand is an OR.
#[derive(Clone, Copy, Debug, PartialEq, Eq)]
pub struct Seen<T> {
    pub value: T,
    pub size: usize,
    pub cost: usize,
}

// The walk over a short stack and, for an expression that fills it, over a long one, which takes longer to clear than most expressions to walk.
pub fn walk<V: Values>(values: &V, bytes: &[u8]) -> Result<Seen<V::Value>, Refusal>
    ensures { walked_of result ≡ walked (V.value values.now) (V.flag_count values.now) bytes.now }
{
    match attempt::<V, SHORT>(values, bytes) {
        Some(answer) => answer,
        None => walk_deep(values, bytes),
    }
}

// The walk over a stack that no expression fills, so that the refusal here is never given.
pub fn walk_deep<V: Values>(values: &V, bytes: &[u8]) -> Result<Seen<V::Value>, Refusal>
    ensures { walked_of result ≡ walked (V.value values.now) (V.flag_count values.now) bytes.now }
{
    match attempt::<V, DEEP>(values, bytes) {
        Some(answer) => answer,
        None => Err(Reason::ManyRecords.at(0)),
    }
}

// The records in turn over a stack of that many values; beside it stand whether an entry is an OR, and where it begins. None where the stack is full.
// One array of structs was proved, and takes 4 to 10 % more instructions in costing, evaluation and the 64 stars than these three: costing at four
// flags, 101 ns beside the original's 106 in one run, would come to 105 to 111. A loop and no iterator: between the reading of a record and its
// passing the walk makes its value, at the depth before it, and at the end it asks how far the reader is.
fn attempt<V: Values, const N: usize>(
    values: &V,
    bytes: &[u8],
) -> Option<Result<Seen<V::Value>, Refusal>>
    requires { (0 < N) × (N ≤ record_limit + 1) }
    ensures { Within N (walked (V.value values.now) (V.flag_count values.now) bytes.now) (attempt_of result) }
{
    let mut reader = Reader::new(values.flags(), bytes);
    let mut stack = [V::Value::default(); N];
    let mut ors = [false; N];
    let mut starts = [0u16; N];
    let mut saved = 0;
    loop {
        let node = match reader.step(&starts) {
            Ok(Some(node)) => node,
            Ok(None) => {
                let seen = Seen {
                    value: stack[0],
                    size: reader.count,
                    cost: reader.count - saved,
                };
                return Some(finished(seen, reader.depth, reader.bytes.len()));
            }
            Err(refusal) => return Some(Err(refusal)),
        };
        let base = reader.depth - node.kind.arity();
        let second = base + 1;
        if N <= second {
            return None;
        }
        let value = values.apply(node.kind, stack[base], stack[second]);
        let or = node.kind.is_or();
        saved = saved + ((or & ors[base]) as usize);
        ors[base] = or;
        stack[base] = value;
        reader.pass(node, &mut starts);
    }
}

// The answer at the end of the records, where one operand must be left.
fn finished<T: Copy>(seen: Seen<T>, depth: usize, length: usize) -> Result<Seen<T>, Refusal>
    ensures { walked_of result ≡ ended depth length (gives seen) }
{
    if depth == 1 {
        return Ok(seen);
    }
    Err(Reason::BadEnd.at(length))
}
