// What the bytes of a recorded file say: numbers, outcomes, and lists of numbers as the library is lent them or must leave them; what fills a lent
// buffer before; and how much a table takes. It rests on `comparison` for the form of an outcome and on `rules` for the limit of flags. Reading the
// file itself is in `replay`.
#![tactic(auto)]

pub mod numbers;
pub mod pattern;
pub mod results;
pub mod sizes;
pub mod slices;
