// The examination of a rule for people: the output of the examining command for its whole input, a line of a table's digits and a line of a rule's
// records. It says whether the examiner accepts the rule, or in words which row of the refusal table refused it, and where.
// It rests on `examiner` and on `text`.
#![tactic(auto)]

mod notation;
mod parts;
mod verdict;

ghost use Rattle.std.specs.Prelude.{◌≤◌, length};
ghost use Rattle.rules.specs.Text.{flags_of};
ghost use Rattle.text.specs.TableDigits.{values};
ghost use Rattle.text.specs.Page.{Shows};
ghost use Rattle.examination_text.specs.Notation.{record_texts};
ghost use Rattle.examination_text.specs.Input.{longest, of_rule, of_table, verdict_page};

use crate::parts::Parts;
use crate::verdict::Rule;
use packed_anf::lent::Entries;
use text::table::{Digits, TABLE_DIGITS};
use text::{Page, Text};

// What the input has at most, in bytes.
const LONGEST: usize = 4095;

// What is written of input that is too long or not two lines, of a first line that is no table, and of a second that is no rule.
const TOO_LONG: &[u8] = b"the input is longer than 4095 bytes\n";

const NOT_LINES: &[u8] = b"the input must be two lines: a table's digits, and a rule's records\n";

const NOT_TABLE: &[u8] = b"line 1 must be 1, 2, 4, 8, 16, 32 or 64 digits 0 or 1\n";

const NOT_RULE: &[u8] = b"line 2 must be records such as VA0 VA1 OR, one space between two\n";

// The page for a table's digits and a line. That the line has room is asked for where its records are pushed, and handed down to there: a type for it
// would be opened again by each use of the line.
fn rule_page(digits: Digits<'_>, line: &[u8]) -> Page
    requires { length line.now ≤ longest }
    ensures { Shows (of_rule digits.entry.flags.count (values digits.entry.bytes.now) (record_texts line.now)) result }
{
    let Some(expression) = notation::expression(line) else {
        return text::page_of(NOT_RULE);
    };
    let entries = text::table::entries::<TABLE_DIGITS>(digits.bytes);
    let answer = examiner::examine(digits.flags.count, &entries, &expression);
    let table = Entries {
        flags: digits.flags,
        entries: &entries,
    };
    let rule = Rule { table, line };
    let mut verdict = Text::new();
    rule.push_verdict(&mut verdict, answer);
    text::push(&mut verdict, b"\n");
    text::page_of(&verdict)
}

// The page for the two lines.
fn lines_page(digits: &[u8], line: &[u8]) -> Page
    requires { length line.now ≤ longest }
    ensures { Shows (of_table digits.now line.now (flags_of (length digits.now))) result }
{
    let Some(table) = Digits::of(digits) else {
        return text::page_of(NOT_TABLE);
    };
    rule_page(table, line)
}

// The output for the whole input: two lines, each ended by a newline, behind the last of which nothing stands.
pub fn examine_rule(input: &[u8]) -> Page
    ensures { Shows (verdict_page input.now) result }
{
    if LONGEST < input.len() {
        return text::page_of(TOO_LONG);
    }
    let mut lines = Parts::of(b'\n', input);
    let (Some(digits), Some(line), Some(rest), None) = (
        lines.next(),
        lines.next(),
        lines.next(),
        lines.next(),
    ) else {
        return text::page_of(NOT_LINES);
    };
    if !rest.is_empty() {
        return text::page_of(NOT_LINES);
    }
    lines_page(digits, line)
}
