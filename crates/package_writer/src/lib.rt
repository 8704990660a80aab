// The writer of a package: one rule, a flag count with the word of a table and an expression, at the front of a lent buffer. What it writes is a rule
// that the examiner accepts. It rests on `rule_package` for what a rule's bytes are, and on `examiner`.
#![tactic(auto)]

ghost use Rattle.std.specs.Prelude.{◌≡◌, ◌≤◌, length};
ghost use Rattle.rules.specs.Calls.{fill};
ghost use Rattle.rules.specs.Limits.{byte_limit};
ghost use Rattle.rules.specs.Outcome.{left};
ghost use Rattle.rule_package.specs.Calls.{write_rule};
ghost use Rattle.rule_package.specs.Rule.{rule_bytes};
ghost use Rattle.package_writer.specs.Answers.{writing_of};
ghost use Rattle.package_writer.specs.Inner.{header};

use rule_package::{HEADER_LENGTH, PackageFlags};
use rules::{Reason, Refusal};

// The rule, at the front of `out`.
pub fn write_rule(
    flags: usize,
    table: u64,
    expression: &[u8],
    out: &mut [u8],
) -> Result<usize, Refusal>
    ensures answer { writing_of out.new result
        ≡ write_rule (record { flags = flags; table = table; expression = expression.now }) (length out.old) }
    ensures lent { out.new ≡ left out.old
        (write_rule (record { flags = flags; table = table; expression = expression.now }) (length out.old)) }
{
    let flags = rule_package::checked(flags, table, 0)?;
    examiner::examine_word(flags, table, expression)?;
    put(flags, table, expression, out)
}

// A rule that the examiner accepts, if there is room for it.
fn put(flags: PackageFlags, table: u64, expression: &[u8], out: &mut [u8]) -> Result<usize, Refusal>
    requires { length expression.now ≤ byte_limit }
    ensures answer { writing_of out.new result
        ≡ fill (length out.old) (rule_bytes (record { flags = flags.count; table = table; expression = expression.now })) }
    ensures lent { out.new ≡ left out.old
        (fill (length out.old) (rule_bytes (record { flags = flags.count; table = table; expression = expression.now }))) }
{
    let length = HEADER_LENGTH + expression.len();
    if out.len() < length {
        return Err(Reason::ShortOutput.at(length));
    }
    out[..HEADER_LENGTH].copy_from_slice(&header(
        flags.count as u8,
        expression.len() as u16,
        table,
    ));
    put_all(expression, &mut out[HEADER_LENGTH..length]);
    Ok(length)
}

// A slice, whole. Byte by byte, because with `copy_from_slice` the library for C needs `memmove` from outside.
fn put_all(bytes: &[u8], out: &mut [u8])
    requires { length bytes.now ≡ length out.old }
    ensures { out.new ≡ bytes.now }
{
    for i in 0..out.len() {
        out[i] = bytes[i];
    }
}

// The mark, the flag count, the count of the expression's bytes and the table word: 2 + 1 + 2 + 8 bytes.
fn header(flags: u8, count: u16, table: u64) -> [u8; HEADER_LENGTH]
    ensures { result ≡ header flags count table }
{
    let [low, high] = count.to_le_bytes();
    let [a, b, c, d, e, f, g, h] = table.to_le_bytes();
    [b'R', b'U', flags, low, high, a, b, c, d, e, f, g, h]
}
