// The calls on expressions, for C: the reader, evaluation at a setting and for 64 stars, costing, the cheaper of two and the examiner. Each answers
// in numbers, in a lent block; the cheaper of two returns its number. It rests on these calls and on `answer_block`.
#![tactic(auto)]

ghost use Rattle.std.specs.Prelude.{◌≡◌};
ghost use Rattle.expr.specs.Answers.{kind_of};
ghost use Rattle.expr_cost.specs.Answers.{costs_of};
ghost use Rattle.reader.specs.Answers.{found_of};
ghost use Rattle.rules.specs.Calls;
ghost use Rattle.answer_block.specs.Block.{Answers, or_end};
ghost use Rattle.answer_block.specs.Numbers as c;

use answer_block::{alone, count};
use cheaper::Which;
use expr::Kind;
use expr_cost::Costs;
use reader::Node;

// The record at a place, or the end.
pub fn read(flags: usize, bytes: &[u8], place: usize, answer: &mut [u64]) -> u64
    ensures answer { Answers c.reading (Calls.read flags bytes.now place)
        answer.old result answer.new }
{
    answer_block::reading(answer, reader::read(flags, bytes, place).map(record))
}

// A record's kind and payload, the next place and where its operands start.
fn record(node: Option<Node>) -> Option<[u64; 5]>
    ensures { or_end result ≡ c.reading (found_of node) }
{
    let node = node?;
    let (kind, payload) = kind_and_payload(node.kind);
    Some([
        kind,
        payload,
        node.next as u64,
        node.first as u64,
        node.second as u64,
    ])
}

// A kind's number, 1 CO, 2 VA, 3 AN, 4 OR, 5 XO, 6 NO, and its payload, 0 where it has none: C is told these (`enum guide_rules_kind`).
fn kind_and_payload(kind: Kind) -> (u64, u64)
    ensures { result ≡ (c.kind_number (kind_of kind), c.payload (kind_of kind)) }
{
    match kind {
        Kind::Constant(value) => (1, u64::from(value)),
        Kind::Variable(flag) => (2, u64::from(flag)),
        Kind::And => (3, 0),
        Kind::Or => (4, 0),
        Kind::Xor => (5, 0),
        Kind::Not => (6, 0),
    }
}

// The value of an expression at one setting.
pub fn evaluate(flags: usize, bytes: &[u8], setting: usize, answer: &mut [u64]) -> u64
    ensures answer { Answers c.alone (Calls.evaluate flags bytes.now setting)
        answer.old result answer.new }
{
    answer_block::answer(
        answer,
        evaluation::evaluate(flags, bytes, setting).map(alone),
    )
}

// The values of an expression for 64 stars, in one word.
pub fn evaluate_stars(flags: usize, words: &[u64], bytes: &[u8], answer: &mut [u64]) -> u64
    ensures answer { Answers c.alone (Calls.evaluate_stars flags words.now bytes.now)
        answer.old result answer.new }
{
    answer_block::answer(
        answer,
        stars::evaluate_stars(flags, words, bytes).map(alone),
    )
}

// The cost, size and depth of an expression.
pub fn cost(flags: usize, bytes: &[u8], answer: &mut [u64]) -> u64
    ensures answer { Answers c.costs (Calls.costing flags bytes.now)
        answer.old result answer.new }
{
    answer_block::answer(answer, expr_cost::compute_cost(flags, bytes).map(costs))
}

fn costs(costs: Costs) -> [u64; 3]
    ensures { result ≡ c.costs (costs_of costs) }
{
    [costs.cost as u64, costs.size as u64, costs.depth as u64]
}

// Which of two expressions is the cheaper: 1 the first, 2 the second, 0 where the flag count or either is refused. C is told these numbers.
pub fn cheaper(flags: usize, first: &[u8], second: &[u8]) -> u64
    ensures { result ≡ c.cheaper flags first.now second.now }
{
    match cheaper::compare(flags, first, second) {
        Some(Which::First) => 1,
        Some(Which::Second) => 2,
        None => 0,
    }
}

// The examination of an expression against a table.
pub fn examine(flags: usize, table: &[u64], bytes: &[u8], answer: &mut [u64]) -> u64
    ensures answer { Answers c.alone (Calls.examine flags table.now bytes.now)
        answer.old result answer.new }
{
    answer_block::answer(answer, examiner::examine(flags, table, bytes).map(count))
}
