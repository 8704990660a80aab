// Refusals: the conditions under which the calls refuse, each with its number in the documents' tables, and the refusal that an answer holds, a
// condition with a place. It rests on the limits of specs/.
ghost use Rattle.std.specs.Prelude.{◌≡◌};
ghost use Rattle.rules.specs.Refusal.{number};

// Why a call refuses, with its number, in the order of the checks: that of document 01's table, with request 1's 14 before the records, and with the
// rows of a package last.
#[derive(Clone, Copy, Debug, PartialEq, Eq)]
pub enum Reason {
    TooManyFlags = 1,
    ShortTable = 2,
    ShortCoefficients = 3,
    StrayCoefficient = 4,
    BadSetting = 11,
    ShortStars = 14,
    ManyRecords = 9,
    BadMark = 6,
    BadPayload = 7,
    FewOperands = 8,
    BadEnd = 10,
    Differs = 12,
    TooCostly = 13,
    ShortOutput = 5,

    // Of a package: these two come before `TooManyFlags`, and the last before the records.
    BadRuleMark = 15,
    PastEnd = 16,
    StrayTableBit = 17,
}

// The number by which the documents know the condition.
impl From<Reason> for u64 {
    ghost from_gives = { λ reason n. n ≡ number reason };

    fn from(reason: Reason) -> u64 {
        reason as u64
    }
}

// A refusal: the condition, and the place that it gives.
#[derive(Clone, Copy, Debug, PartialEq, Eq)]
pub struct Refusal {
    pub reason: Reason,
    pub place: usize,
}

impl Reason {
    // The refusal at a place.
    pub fn at(self, place: usize) -> Refusal
        ensures { result ≡ record { reason = self; place = place } }
    {
        Refusal {
            reason: self,
            place,
        }
    }
}

impl Refusal {
    // The number by which the documents know its condition.
    pub fn number(self) -> u64
        ensures { result ≡ number self.reason }
    {
        u64::from(self.reason)
    }
}
