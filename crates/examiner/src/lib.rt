// The examiner: whether an expression, whoever wrote it, is well formed, agrees with its table at every setting and costs no more than the raw
// form. All settings of the table stand side by side in one word, so that one walk over the bytes serves them all; a second follows where the first
// fills its short stack. It rests on `walk`, `lanes` and `table`.
#![tactic(auto)]

ghost use Rattle.std.specs.Prelude.{◌≡◌};
ghost use Rattle.rules.specs.Calls;
ghost use Rattle.rules.specs.Table.{word_table};
ghost use Rattle.table.specs.Truth.{truth};
ghost use Rattle.examiner.specs.Answers.{examination_of};
ghost use Rattle.examiner.specs.Examined.{examine_truth};
ghost use Rattle.examiner.specs.Inner.{judgment};

use lanes::Lanes;
use packed_anf::lent::Entries;
use rules::{RULE_FLAGS, Reason, Refusal, RuleFlags};
use table::Table;
use walk::Seen;

// The cost of an expression that is accepted against a table.
pub fn examine(flags: usize, table: &[u64], bytes: &[u8]) -> Result<usize, Refusal>
    ensures { examination_of result ≡ Calls.examine flags table.now bytes.now }
{
    let table = Entries::<RULE_FLAGS>::checked(flags, table)?;
    examine_table(Table::of_entries(table), bytes)
}

// The same against the table that a word holds, bit s for setting s.
pub fn examine_word(flags: RuleFlags, word: u64, bytes: &[u8]) -> Result<usize, Refusal>
    ensures { examination_of result ≡ Calls.examine flags.count (word_table flags.count word) bytes.now }
{
    examine_table(Table { flags, bits: word }, bytes)
}

// The same against a table by value.
pub fn examine_table(table: Table, bytes: &[u8]) -> Result<usize, Refusal>
    ensures { examination_of result ≡ examine_truth table.flags.count (truth table) bytes.now }
{
    let words = mask_words::flag_words();
    let lanes = Lanes {
        flags: table.flags,
        words: &words,
    };
    judge(table, walk::walk(&lanes, bytes)?)
}

// The verdict on an expression of which the walk saw this.
fn judge(table: Table, seen: Seen<u64>) -> Result<usize, Refusal>
    ensures { examination_of result ≡ judgment table.flags.count (truth table) seen }
{
    if let Some(setting) = table.difference(seen.value) {
        return Err(Reason::Differs.at(setting));
    }
    if table.form().raw_cost() < seen.cost {
        return Err(Reason::TooCostly.at(seen.cost));
    }
    Ok(seen.cost)
}
