// The console's calls by their names for C, each with the clauses of the call in `console` that it makes; `include/console.h` declares them. They
// rest on `console`. A static library exports the functions of one crate, so they stand here together. Their bodies stand below: each must-fail edit
// checks its whole crate, so that by a rule of this repository a crate with edits stays small (docs/DECISIONS.md, "two layers").
#![tactic(auto)]

ghost use Rattle.std.specs.Prelude.{◌≡◌};
ghost use Rattle.rules.specs.Calls;
ghost use Rattle.rules.specs.Console.{entries, number, result as result_of};

// The refusal's number at evaluation, or 0.
#[unsafe(no_mangle)]
pub extern "C" fn rule_evaluation_number(flags: usize, bytes: &[u8], setting: usize) -> u64
    ensures { result ≡ number (Calls.evaluate flags bytes.now setting) }
{
    console::rule_evaluation_number(flags, bytes, setting)
}

// The value at the setting, or the refusal's place.
#[unsafe(no_mangle)]
pub extern "C" fn rule_evaluation_result(flags: usize, bytes: &[u8], setting: usize) -> u64
    ensures { result ≡ result_of (Calls.evaluate flags bytes.now setting) }
{
    console::rule_evaluation_result(flags, bytes, setting)
}

// The refusal's number at examination, or 0.
#[unsafe(no_mangle)]
pub extern "C" fn rule_examination_number(flags: usize, table: &[u8], bytes: &[u8]) -> u64
    ensures { result ≡ number (Calls.examine flags (entries table.now) bytes.now) }
{
    console::rule_examination_number(flags, table, bytes)
}

// The cost of an expression that is accepted, or the refusal's place.
#[unsafe(no_mangle)]
pub extern "C" fn rule_examination_result(flags: usize, table: &[u8], bytes: &[u8]) -> u64
    ensures { result ≡ result_of (Calls.examine flags (entries table.now) bytes.now) }
{
    console::rule_examination_result(flags, table, bytes)
}
