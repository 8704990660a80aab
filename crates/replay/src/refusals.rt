// Tables of calls that must be refused, counted, and the lines that tell it. The same calls with a wrong number and with a wrong place, and good
// calls as if they were refused, show that each call is made and compared. It rests on refusals, on the count and on the line that tells it.
ghost use Rattle.std.specs.Prelude.{◌≡◌};
ghost use Rattle.replay.specs.Refusals.{expected, Counted};

use crate::line;
use comparison::{Outcome, Tally};
use rules::{Reason, Refusal};
use std::io;

// The flag count, the number that makes what the call is lent, how long that is, the room, and the refusal's condition and place. They are a tuple so
// that a case is a line: a constant's value may call no function, and a struct's fields would take a line each.
pub type Case = (usize, u64, usize, usize, Reason, usize);

// What of each expected refusal is made wrong.
#[derive(Clone, Copy, Debug, PartialEq, Eq)]
pub enum Wrong {
    Nothing,
    Number,
    Place,
}

impl Wrong {
    fn expected(self, refusal: Refusal) -> Outcome
        ensures { result ≡ expected self refusal }
    {
        match self {
            Wrong::Nothing => Outcome::from(refusal),
            Wrong::Number => Outcome::refused(refusal.number() ^ 1, refusal.place),
            Wrong::Place => Outcome::refused(refusal.number(), refusal.place ^ 1),
        }
    }
}

// `is_refused` makes a case's call and says whether it comes to that outcome.
pub fn count<F: Fn(usize, u64, usize, usize, Outcome) -> bool>(
    cases: &[Case],
    wrong: Wrong,
    tally: &mut Tally,
    is_refused: F,
)
    requires { F.IsAlwaysCallable is_refused }
    ensures { Counted F.Fn is_refused wrong tally.old cases.now tally.new }
{
    for (flags, number, length, room, reason, place) in cases {
        let expected = wrong.expected(reason.at(*place));
        tally.count(is_refused(*flags, *number, *length, *room, expected));
    }
}

// `all` counts every case, and `good` counted the good calls.
pub fn replay<R: Print, F: Fn(Wrong) -> Tally>(rt: &R, all: F, good: Tally) -> io::Result<()>
    requires { F.IsAlwaysCallable all }
{
    line::print(rt, "refusals", "cases", all(Wrong::Nothing))?;
    line::print(rt, "wrong numbers of refusals", "cases", all(Wrong::Number))?;
    line::print(rt, "wrong places of refusals", "cases", all(Wrong::Place))?;
    line::print(rt, "refusals of good calls", "cases", good)
}
