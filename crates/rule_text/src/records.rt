// The records of an expression, written behind what a page has. It rests on `expr::record_at` and on what `text` writes.
ghost use Rattle.rules.specs.Machine.{made, WellFormed};
ghost use Rattle.rules.specs.Record.{FlagBelow};
ghost use Rattle.expr.specs.Answers.{kind_of};
ghost use Rattle.text.specs.Page.{page_bytes, Written};
ghost use Rattle.rule_text.specs.inner.Parts.{gap, kind_text, shown};

use expr::Kind;
use rules::RuleFlags;
use text::Text;

// A record's mark, and its payload as a digit.
#[tactic(auto, unfolding(rules::specs::Ascii::ascii, crate::specs::inner::Parts::kind_text))]
fn push_kind(page: &mut Text, kind: Kind)
    requires { FlagBelow 10 (kind_of kind) }
    ensures { Written page_bytes (kind_text (kind_of kind)) page.old page.new }
{
    match kind {
        Kind::Constant(b) => text::push(page, &[b'C', b'O', b'0' + u8::from(b)]),
        Kind::Variable(i) => text::push(page, &[b'V', b'A', b'0' + i]),
        Kind::And => text::push(page, b"AN"),
        Kind::Or => text::push(page, b"OR"),
        Kind::Xor => text::push(page, b"XO"),
        Kind::Not => text::push(page, b"NO"),
    }
}

// A space before every record but the first.
#[tactic(auto, unfolding(rules::specs::Ascii::ascii, crate::specs::inner::Parts::gap))]
fn push_gap(page: &mut Text, place: usize)
    ensures { Written page_bytes (gap place) page.old page.new }
{
    if place != 0 {
        text::push(page, b" ");
    }
}

// The records, one space between two.
pub fn push_records(page: &mut Text, flags: RuleFlags, expression: &[u8])
    requires { WellFormed flags.count expression.now }
    ensures { Written page_bytes (shown (made flags.count expression.now)) page.old page.new }
{
    let mut place = 0;
    // An iterator of the records would have this body as its `next`, and beside it a list of the records that are still to come, for this loop alone.
    while place < expression.len() {
        // No record takes more than two operands, and that each has its own is known already: the expression is well formed.
        let Ok(read) = expr::record_at(flags.count, expression, 2, place) else {
            return;
        };
        push_gap(page, place);
        push_kind(page, read.kind);
        place = read.next;
    }
}
