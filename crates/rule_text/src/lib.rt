// The printed text of a rule: the output of the printing program for its whole input. A line of digits is a rule table, whose expression the
// compiler writes; it is printed as three lines. It rests on `compiler`, on the records of `expr` and on `text`.
#![tactic(auto)]

mod records;

ghost use Rattle.rules.specs.Machine.{made};
ghost use Rattle.rules.specs.Text.{report, printed};
ghost use Rattle.text.specs.TableDigits.{values};
ghost use Rattle.text.specs.Page.{Shows};
ghost use Rattle.rule_text.specs.inner.Parts.{shown, lines, Printable};

use rules::{BYTE_LIMIT, RuleFlags};
use text::table::{Digits, TABLE_DIGITS};
use text::{Page, Text};

// What is written of input that is no line of a rule.
const BAD_LINE: &[u8] = b"bad line\n";

// The page of a rule whose expression and costs are these.
fn rule_page(flags: RuleFlags, expression: &[u8], cost: usize, raw: usize) -> Page
    requires { Printable flags.count expression.now cost raw }
    ensures { Shows (lines flags.count (shown (made flags.count expression.now)) cost raw) result }
{
    let mut lines = Text::new();
    text::push_number(&mut lines, b"flags ", flags.count);
    text::push(&mut lines, b"\n");
    records::push_records(&mut lines, flags, expression);
    text::push_number(&mut lines, b"\ncost ", cost);
    text::push_number(&mut lines, b" raw ", raw);
    text::push(&mut lines, b"\n");
    text::page_of(&lines)
}

// The page of the rule whose table is these digits. The compiler refuses no complete table of up to six flags.
fn table_page(digits: Digits<'_>) -> Page
    ensures { Shows (report digits.entry.flags.count (values digits.entry.bytes.now)) result }
{
    let table = text::table::entries::<TABLE_DIGITS>(digits.bytes);
    // The compiler writes into a lent buffer, as C lends it, and says how much of it.
    let mut expression = [0u8; BYTE_LIMIT];
    let Ok(rule) = compiler::build_anf_expr(digits.flags.count, &table, &mut expression) else {
        return text::page_of(BAD_LINE);
    };
    rule_page(digits.flags, &expression[..rule.bytes], rule.cost, rule.raw)
}

// The output for the whole input: a line is digits and then a newline.
pub fn print_rule(input: &[u8]) -> Page
    ensures { Shows (printed input.now) result }
{
    let [digits @ .., b'\n'] = input else {
        return text::page_of(BAD_LINE);
    };
    match Digits::of(digits) {
        Some(table) => table_page(table),
        None => text::page_of(BAD_LINE),
    }
}
