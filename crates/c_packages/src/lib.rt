// The calls on packages, for C: the writer of one rule and the reader. Each answers in numbers, in a lent block. It rests on these calls and on
// `answer_block`.
#![tactic(auto)]

ghost use Rattle.std.specs.Prelude.{◌≡◌, length};
ghost use Rattle.rules.specs.Outcome.{left};
ghost use Rattle.rule_package.specs.Calls.{write_rule, read_rule};
ghost use Rattle.package_reader.specs.Answers.{found_of};
ghost use Rattle.answer_block.specs.Block.{Answers, or_end};
ghost use Rattle.answer_block.specs.Numbers as c;

use answer_block::count;
use package_reader::RuleAt;

// A rule, at the front of `out`.
#[tactic(auto, using(laws::proofs::calls::Outcome::length_front))]
pub fn write(flags: usize, table: u64, bytes: &[u8], out: &mut [u8], answer: &mut [u64]) -> u64
    ensures lent { out.new ≡ left out.old
        (write_rule (record { flags = flags; table = table; expression = bytes.now }) (length out.old)) }
    ensures answer { Answers c.entries
        (write_rule (record { flags = flags; table = table; expression = bytes.now }) (length out.old))
        answer.old result answer.new }
{
    answer_block::answer(
        answer,
        package_writer::write_rule(flags, table, bytes, out).map(count),
    )
}

// The rule at a place, or the end.
pub fn read(bytes: &[u8], place: usize, answer: &mut [u64]) -> u64
    ensures answer { Answers c.package_reading (read_rule bytes.now place) answer.old result answer.new }
{
    answer_block::reading(answer, package_reader::read_rule(bytes, place).map(rule))
}

// That there is a rule, which `enum guide_rules_package_kind` tells C by 1, its flag count and table, where its expression starts and how long it
// is, and the next place.
fn rule(rule: Option<RuleAt>) -> Option<[u64; 6]>
    ensures { or_end result ≡ c.package_reading (found_of rule) }
{
    let rule = rule?;
    Some([
        1,
        rule.flags.count as u64,
        rule.table,
        rule.start as u64,
        rule.length as u64,
        rule.next as u64,
    ])
}
