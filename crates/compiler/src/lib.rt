// The compiler, after `build_anf_expr` of `anf_cleanup.rs`: a rule table's expression, written as postfix records. The cleanup decides and `emission`
// follows its choices into a buffer of this call, so that the length is known before the first byte is written to the lent one. It rests on `table`,
// `anf_cleanup` and `emission`.
#![tactic(auto)]

ghost use Rattle.std.specs.Prelude.{◌≡◌, length};
ghost use Rattle.rules.specs.Calls;
ghost use Rattle.rules.specs.Outcome.{left};
ghost use Rattle.table.specs.Truth.{truth};
ghost use Rattle.compiler.specs.Answers.{compilation_of, bytes_of};
ghost use Rattle.compiler.specs.Truth.{compile_truth};

use anf_cleanup::Choices;
use mask_words::Lookup;
use packed_anf::lent::Entries;
use postfix::Postfix;
use rules::{BYTE_LIMIT, RULE_FLAGS, Reason, Refusal};
use table::Table;

// What was written: the counts of bytes and records, the cost, and the cost of the raw form.
#[derive(Clone, Copy, Debug, PartialEq, Eq)]
pub struct Expression {
    pub bytes: usize,
    pub records: usize,
    pub cost: usize,
    pub raw: usize,
}

// The expression of the table, at the front of `out`.
pub fn build_anf_expr(flags: usize, table: &[u64], out: &mut [u8]) -> Result<Expression, Refusal>
    ensures answer { compilation_of out.new result ≡ Calls.compile flags table.now (length out.old) }
    ensures lent { out.new ≡ left out.old
        (bytes_of (Calls.compile flags table.now (length out.old))) }
{
    let table = Entries::<RULE_FLAGS>::checked(flags, table)?;
    compile_table(Table::of_entries(table), out)
}

// The same for a table by value.
pub fn compile_table(table: Table, out: &mut [u8]) -> Result<Expression, Refusal>
    ensures answer { compilation_of out.new result ≡ compile_truth table.flags.count (truth table) (length out.old) }
    ensures lent { out.new ≡ left out.old (bytes_of (compile_truth table.flags.count (truth table) (length out.old))) }
{
    let lookup = Lookup::new();
    let form = table.form();
    let raw = form.raw_cost();
    let plan = anf_cleanup::cleanup(form, &lookup);
    let mut written = Postfix::<BYTE_LIMIT>::new();
    let choices = Choices::from(plan);
    emission::emit(form, choices, &lookup, &mut written);
    let bytes = written.bytes();
    if out.len() < bytes.len() {
        return Err(Reason::ShortOutput.at(bytes.len()));
    }
    out[..bytes.len()].copy_from_slice(bytes);
    Ok(Expression {
        bytes: bytes.len(),
        records: written.records(),
        cost: plan.cost,
        raw,
    })
}
