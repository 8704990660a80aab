// The console's calls, for C: evaluation and examination, each as two calls with the same arguments, one for the number, 0 for none, and one for the
// result or the place. A table is bytes here, eight an entry, low byte first; a cut last entry doesn't count. `include/console.h` declares them, and
// `console_c` exports them. They rest on `evaluation`, `examiner` and `table`.
#![tactic(auto)]

ghost use Rattle.std.specs.Prelude.{◌≡◌};
ghost use Rattle.rules.specs.Calls;
ghost use Rattle.rules.specs.Console.{entries, number, result as result_of};
ghost use Rattle.rules.specs.Refusal.{outcome_of};

use packed_anf::lent;
use rules::Refusal;
use table::Table;

// The refusal's number at evaluation, or 0.
pub fn rule_evaluation_number(flags: usize, bytes: &[u8], setting: usize) -> u64
    ensures { result ≡ number (Calls.evaluate flags bytes.now setting) }
{
    number(evaluation::evaluate(flags, bytes, setting))
}

// The value at the setting, or the refusal's place.
pub fn rule_evaluation_result(flags: usize, bytes: &[u8], setting: usize) -> u64
    ensures { result ≡ result_of (Calls.evaluate flags bytes.now setting) }
{
    result(evaluation::evaluate(flags, bytes, setting))
}

// The refusal's number at examination, or 0.
pub fn rule_examination_number(flags: usize, table: &[u8], bytes: &[u8]) -> u64
    ensures { result ≡ number (Calls.examine flags (entries table.now) bytes.now) }
{
    number(examine(flags, table, bytes))
}

// The cost of an expression that is accepted, or the refusal's place.
pub fn rule_examination_result(flags: usize, table: &[u8], bytes: &[u8]) -> u64
    ensures { result ≡ result_of (Calls.examine flags (entries table.now) bytes.now) }
{
    result(examine(flags, table, bytes))
}

fn number(answer: Result<u64, Refusal>) -> u64
    ensures { result ≡ number (outcome_of (λ x. x) answer) }
{
    match answer {
        Ok(_) => 0,
        Err(refusal) => refusal.number(),
    }
}

fn result(answer: Result<u64, Refusal>) -> u64
    ensures { result ≡ result_of (outcome_of (λ x. x) answer) }
{
    match answer {
        Ok(result) => result,
        Err(refusal) => refusal.place as u64,
    }
}

// Examination of a table in bytes.
fn examine(flags: usize, table: &[u8], bytes: &[u8]) -> Result<u64, Refusal>
    ensures { outcome_of (λ c. c) result ≡ Calls.examine flags (entries table.now) bytes.now }
{
    let flags = lent::enough_entries(flags, table.len() / 8)?;
    let cost = examiner::examine_table(Table::of_bytes(flags, table), bytes)?;
    Ok(cost as u64)
}
