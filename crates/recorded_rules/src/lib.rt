// The compiler, the examiner and raw costing as a recorded rule asks for them: what each call tells and leaves, compared with
// what the file says. It rests on these calls and the transform, on `recorded` for what the bytes of a file say and on
// `comparison`. Reading the files, whose format is in the data folder of `replay_rules`, and counting is there.
// Buffers are arrays of the most that a file asks: no crate allocates.
#![tactic(auto)]

pub mod calls;
pub mod one_rule;
