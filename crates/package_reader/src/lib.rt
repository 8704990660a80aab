// The reader of a package: the rule at a place, or the end. A rule that it gives is one that the examiner accepts against its own table. It rests on
// `rule_package` for what a rule's bytes are, and on `examiner`.
#![tactic(auto)]

mod header;

ghost use Rattle.std.specs.Prelude.{◌≢◌, ◌≡◌, ◌+◌, ◌<◌, ◌^◌};
ghost use Rattle.rules.specs.Refusal.{outcome_of};
ghost use Rattle.rules.specs.declared.refusal.Reason.{Reason};
ghost use Rattle.rule_package.specs.Calls.{rule_in, in_package, read_rule};
ghost use Rattle.rule_package.specs.Rule.{examine_rule};
ghost use Rattle.package_reader.specs.Answers.{rule_at_of, rule_reading_of};
ghost use Rattle.package_reader.specs.Inner.{Whole, refusal_of};

use rule_package::PackageFlags;
use rules::{PACKAGE_LIMIT, Reason, Refusal};

// A rule in a package: its flag count, the word of its table, where its expression starts and how long it is, and the place after it. The
// documents and C are told these numbers, and a slice would not have its start.
#[derive(Clone, Copy, Debug, PartialEq, Eq)]
pub struct RuleAt {
    pub flags: PackageFlags,
    pub table: u64,
    pub start: usize,
    pub length: usize,
    pub next: usize,
}

// The rule at a place of a package.
#[tactic(auto, using(crate::proofs::Checked::overlong, crate::proofs::Checked::ended))]
pub fn read_rule(bytes: &[u8], place: usize) -> Result<Option<RuleAt>, Refusal>
    ensures { rule_reading_of result ≡ read_rule bytes.now place }
{
    if PACKAGE_LIMIT < bytes.len() {
        return Err(Reason::PastEnd.at(0));
    }
    if bytes.len() <= place {
        return Ok(None);
    }
    let rule = header::read(bytes, place)?;
    examined(bytes, rule)?;
    Ok(Some(rule))
}

// The cost of a rule whose bytes are whole, once the examiner accepts it.
fn examined(bytes: &[u8], rule: RuleAt) -> Result<usize, Refusal>
    requires { Whole bytes.now (rule_at_of rule) }
    ensures { outcome_of (λ c. c) result ≡ in_package rule.start (examine_rule (rule_in bytes.now (rule_at_of rule))) }
{
    let expression = &bytes[rule.start..rule.next];
    let cost = examiner::examine_word(rule.flags, rule.table, expression);
    cost.map_err(|refusal| in_package(rule.start, refusal))
}

// A refusal of the bytes from `at` on, in the package: a place that counts bytes is counted from the package's first byte.
fn in_package(at: usize, refusal: Refusal) -> Refusal
    requires { refusal.reason ≢ Reason.Differs → refusal.reason ≢ Reason.TooCostly → at + refusal.place < 2 ^ 64 }
    ensures { refusal_of result ≡ in_package at (refusal_of refusal) }
{
    match refusal.reason {
        Reason::Differs | Reason::TooCostly => refusal,
        reason => reason.at(at + refusal.place),
    }
}
