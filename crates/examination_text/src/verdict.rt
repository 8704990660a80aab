// The verdict in words, written behind what a page has: why the examiner refused a rule and where, or what the rule costs. It rests on what `text`
// writes, on the form of `table`, on the ones of a word (`mask_words`) and on the record of a place (notation).
ghost use Rattle.std.specs.Prelude.{◌≡◌, ◌≤◌, length};
ghost use Rattle.bits.specs.Word.{places};
ghost use Rattle.rules.specs.Calls.{table_form};
ghost use Rattle.rules.specs.Form.{raw_cost};
ghost use Rattle.rules.specs.Refusal.{number};
ghost use Rattle.examiner.specs.Answers.{examination_of};
ghost use Rattle.text.specs.Page.{page_bytes, Written};
ghost use Rattle.examination_text.specs.Notation.{record_texts};
ghost use Rattle.examination_text.specs.Verdict.{above_raw, flag_names, difference, reason, verdict_text};

use crate::notation::record_number;
use mask_words::Ones;
use packed_anf::lent::Entries;
use rules::{RECORD_LIMIT, RULE_FLAGS, Reason, Refusal, RuleFlags};
use table::Table;
use text::{Text, push, push_number};

// What is examined: a complete table, and the line of an expression's records.
#[derive(Clone, Copy)]
pub struct Rule<'t, 'l> {
    pub table: Entries<'t, RULE_FLAGS>,
    pub line: &'l [u8],
}

// The flags that are set at a setting.
fn set_flags(flags: RuleFlags, setting: usize) -> Ones
    ensures { places 64 result.left ≡ places flags.count setting }
{
    Ones::of(setting as u64 % (1 << flags.count))
}

// The flags, each after a space, or that there is none.
#[tactic(auto, unfolding(rules::specs::Ascii::ascii))]
fn push_flag_names(page: &mut Text, flags: Ones)
    ensures { Written page_bytes (flag_names (places 64 flags.left)) page.old page.new }
{
    if flags.word() == 0 {
        return push(page, b" none");
    }
    for flag in flags {
        push_number(page, b" ", flag);
    }
}

// A difference from the table at a setting.
fn push_difference(page: &mut Text, flags: RuleFlags, setting: usize)
    ensures { Written page_bytes (difference flags.count setting) page.old page.new }
{
    push_number(page, b"differs from the table at setting ", setting);
    push(page, b", flags set:");
    push_flag_names(page, set_flags(flags, setting));
}

impl Rule<'_, '_> {
    // The raw cost of the table.
    fn raw_cost(&self) -> usize
        ensures { result ≡ raw_cost (table_form self.now.table.flags.count self.now.table.entries.now) }
    {
        Table::of_entries(self.table).form().raw_cost()
    }

    // A cost above the raw cost.
    fn push_costs(&self, page: &mut Text, cost: usize)
        ensures { Written page_bytes (above_raw (raw_cost (table_form self.now.table.flags.count self.now.table.entries.now)) cost)
            page.old page.new }
    {
        push_number(page, b"cost ", cost);
        push_number(page, b" is above the raw cost ", self.raw_cost());
    }

    // The reason of a refusal.
    fn push_reason(&self, page: &mut Text, refusal: Refusal)
        ensures { Written page_bytes (reason self.now.table.flags.count self.now.table.entries.now (record_texts self.now.line.now)
            (number refusal.reason) refusal.place) page.old page.new }
    {
        let place = refusal.place;
        let record = record_number(self.line, place);
        match refusal.reason {
            Reason::BadMark => push_number(page, b"unknown mark, at record ", record),
            Reason::BadPayload => {
                push_number(page, b"payload missing or out of range, at record ", record)
            }
            Reason::FewOperands => push_number(page, b"too few operands, at record ", record),
            Reason::ManyRecords => {
                push_number(page, b"more than ", RECORD_LIMIT);
                push_number(page, b" records, at record ", record);
            }
            Reason::BadEnd => push(page, b"no record, or more than one operand left at the end"),
            Reason::Differs => push_difference(page, self.table.flags, place),
            Reason::TooCostly => self.push_costs(page, place),
            // No other condition refuses a rule for a complete table (`examine-rows`): the definition has for all of them the text of the last.
            _ => self.push_costs(page, place),
        }
    }

    // The verdict: the cost, or the row that refused the rule and the reason.
    #[tactic(auto, unfolding(rules::specs::Ascii::ascii, crate::specs::Verdict::verdict_text))]
    pub fn push_verdict(&self, page: &mut Text, answer: Result<usize, Refusal>)
        ensures text { Written page_bytes (verdict_text self.now.table.flags.count self.now.table.entries.now (record_texts self.now.line.now)
            (examination_of answer)) page.old page.new }
        ensures short { length (verdict_text self.now.table.flags.count self.now.table.entries.now (record_texts self.now.line.now)
            (examination_of answer)) ≤ 200 }
    {
        match answer {
            Ok(cost) => push_number(page, b"accepted, cost ", cost),
            Err(refusal) => {
                push_number(page, b"refused by row ", refusal.number() as usize);
                push(page, b": ");
                self.push_reason(page, refusal);
            }
        }
    }
}
