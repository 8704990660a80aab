// The header of a rule: the rows 15, 16, 1 and 17, in this order. It rests on `rule_package`.
ghost use Rattle.std.specs.Prelude.{◌≡◌, ◌≤◌, ◌<◌, length};
ghost use Rattle.rules.specs.Limits.{package_limit};
ghost use Rattle.rules.specs.Refusal.{outcome_of};
ghost use Rattle.rule_package.specs.Calls.{headed};
ghost use Rattle.package_reader.specs.Answers.{rule_at_of};

use crate::RuleAt;
use rule_package::HEADER_LENGTH;
use rules::{Reason, Refusal};

// The rule whose header stands at the place: behind the mark of 2 bytes the flag count in 1, the length in 2 and the table word in 8.
#[tactic(auto, using(crate::proofs::Fields::cut))]
pub fn read(bytes: &[u8], place: usize) -> Result<RuleAt, Refusal>
    requires { (place < length bytes.now) × (length bytes.now ≤ package_limit) }
    ensures { outcome_of rule_at_of result ≡ headed bytes.now place }
{
    if !bytes[place..].starts_with(b"RU") {
        return Err(Reason::BadRuleMark.at(place));
    }
    let header = bytes[place..]
        .first_chunk::<HEADER_LENGTH>()
        .ok_or(Reason::PastEnd.at(place))?;
    let [_, _, flags, low, high, a, b, c, d, e, f, g, h] = *header;
    let start = place + HEADER_LENGTH;
    let length = usize::from(u16::from_le_bytes([low, high]));
    let next = start + length;
    let table = u64::from_le_bytes([a, b, c, d, e, f, g, h]);
    bytes.get(start..next).ok_or(Reason::PastEnd.at(place))?;
    let flags = rule_package::checked(usize::from(flags), table, place)?;
    Ok(RuleAt {
        flags,
        table,
        start,
        length,
        next,
    })
}
