// The calls on tables and coefficients, for C: the transform, the way back, the listing, raw costing and the compiler. Each answers in numbers, in a
// lent block. It rests on these calls and on `answer_block`.
#![tactic(auto)]

ghost use Rattle.std.specs.Prelude.{[], ◌∷◌, ◌≡◌, length};
ghost use Rattle.bits.specs.Bit.{digit};
ghost use Rattle.compiler.specs.Answers.{bytes_of};
ghost use Rattle.rules.specs.Calls;
ghost use Rattle.rules.specs.Outcome.{left, gives, ◌then◌};
ghost use Rattle.answer_block.specs.Block.{Answers};
ghost use Rattle.answer_block.specs.Numbers as c;

use anf_form::Contents;
use answer_block::count;
use compiler::Expression;

// The coefficient words of a table, at the front of `out`.
#[tactic(auto, using(laws::proofs::calls::Outcome::length_front))]
pub fn transform(flags: usize, table: &[u64], out: &mut [u64], answer: &mut [u64]) -> u64
    ensures lent { out.new ≡ left out.old (Calls.transform flags table.now (length out.old)) }
    ensures answer { Answers c.entries (Calls.transform flags table.now (length out.old))
        answer.old result answer.new }
{
    answer_block::answer(
        answer,
        anf_transform::compute_anf(flags, table, out).map(count),
    )
}

// The table of coefficients, one entry for each setting, at the front of `out`.
#[tactic(auto, using(laws::proofs::calls::Outcome::length_front))]
pub fn way_back(flags: usize, coefficients: &[u64], out: &mut [u64], answer: &mut [u64]) -> u64
    ensures lent { out.new ≡ left out.old (Calls.way_back flags coefficients.now (length out.old)) }
    ensures answer { Answers c.entries (Calls.way_back flags coefficients.now (length out.old))
        answer.old result answer.new }
{
    answer_block::answer(
        answer,
        anf_transform::compute_table(flags, coefficients, out).map(count),
    )
}

// The monomials by count of ones, then mask, at the front of `out`.
pub fn listing(flags: usize, coefficients: &[u64], out: &mut [u32], answer: &mut [u64]) -> u64
    ensures lent { out.new ≡ left out.old
        (Calls.listing flags coefficients.now (length out.old) then (λ l. gives l.masks)) }
    ensures answer { Answers c.listing (Calls.listing flags coefficients.now (length out.old))
        answer.old result answer.new }
{
    answer_block::answer(
        answer,
        anf_form::from_anf_coeffs(flags, coefficients, out).map(contents),
    )
}

// The constant, 0 or 1, and the count of monomials.
fn contents(contents: Contents) -> [u64; 2]
    ensures { result ≡ digit contents.constant ∷ contents.count ∷ [] }
{
    [u64::from(contents.constant), contents.count as u64]
}

// The cost of the raw form.
pub fn raw_cost(flags: usize, coefficients: &[u64], answer: &mut [u64]) -> u64
    ensures answer { Answers c.alone (Calls.raw_costing flags coefficients.now)
        answer.old result answer.new }
{
    answer_block::answer(
        answer,
        anf_form::raw_anf_cost(flags, coefficients).map(count),
    )
}

// The expression of a table, at the front of `out`.
pub fn compile(flags: usize, table: &[u64], out: &mut [u8], answer: &mut [u64]) -> u64
    ensures lent { out.new ≡ left out.old
        (bytes_of (Calls.compile flags table.now (length out.old))) }
    ensures answer { Answers c.compilation (Calls.compile flags table.now (length out.old))
        answer.old result answer.new }
{
    answer_block::answer(
        answer,
        compiler::build_anf_expr(flags, table, out).map(expression),
    )
}

// The counts of bytes and records, the cost and the raw cost.
fn expression(expression: Expression) -> [u64; 4]
    ensures { result ≡ expression.bytes ∷ expression.records ∷ expression.cost ∷ expression.raw ∷ [] }
{
    [
        expression.bytes as u64,
        expression.records as u64,
        expression.cost as u64,
        expression.raw as u64,
    ]
}
