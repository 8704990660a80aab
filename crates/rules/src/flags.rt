// A number of flags within a limit, which every call asks for first. It rests on refusals.
ghost use Rattle.std.specs.Prelude.{◌≡◌, ◌≤◌, ltb};
ghost use Rattle.rules.specs.Limits.{too_many_flags};
ghost use Rattle.rules.specs.Outcome.{gives, refuse};
ghost use Rattle.rules.specs.Refusal.{outcome_of};

use crate::refusal::{Reason, Refusal};

// At most `LIMIT` flags.
#[derive(Clone, Copy, Debug, PartialEq, Eq)]
pub struct Flags<const LIMIT: usize> {
    pub count: usize,
    ghost within: { count ≤ LIMIT },
}

// Row 1: more flags than the limit.
impl<const LIMIT: usize> TryFrom<usize> for Flags<LIMIT> {
    type Error = Refusal;

    ghost try_from_gives = { λ n r. outcome_of (λ f. f.count) r ≡ refuse (ltb LIMIT n) too_many_flags 0 (gives n) };

    fn try_from(count: usize) -> Result<Self, Refusal> {
        if LIMIT < count {
            return Err(Reason::TooManyFlags.at(0));
        }
        Ok(Flags { count })
    }
}
