// What the programs that replay recorded answers compare, and how they count it: outcomes in numbers, each beside the buffer that a call leaves, and
// the tally of them all. It rests on `rules` for refusals and on `bits`. Nothing here reads a file, so that every function has its full promise.
#![tactic(auto)]

pub mod outcome;
pub mod tally;

pub use crate::outcome::Outcome;
pub use crate::tally::Tally;
