// Evaluation of an expression for 64 stars at once: a word for each flag, in which bit j is star j's, and a word of values. After its two checks it
// is the walk over the records that the examiner makes. It rests on `walk` and `lanes`.
#![tactic(auto)]

ghost use Rattle.std.specs.Prelude.{◌≡◌};
ghost use Rattle.rules.specs.Calls;
ghost use Rattle.stars.specs.Answers.{star_evaluation_of};

use lanes::Lanes;
use rules::{Reason, Refusal, RuleFlags};

// The values for all stars; `words` has flag i in word i, and what is past the flags is ignored.
#[tactic(auto, unfolding(rules::specs::Calls::evaluate_stars))]
pub fn evaluate_stars(flags: usize, words: &[u64], bytes: &[u8]) -> Result<u64, Refusal>
    ensures { star_evaluation_of result ≡ Calls.evaluate_stars flags words.now bytes.now }
{
    let flags = RuleFlags::try_from(flags)?;
    if words.len() < flags.count {
        return Err(Reason::ShortStars.at(0));
    }
    Ok(walk::walk(&Lanes { flags, words }, bytes)?.value)
}
