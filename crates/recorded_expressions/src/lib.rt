// Whether the library's call answers as the bytes of a recorded item say, with a module for the items of each file:
// cases.bin, choices.bin, costs.bin. It rests on `recorded_calls` for the answers and on `recorded` for what bytes say.
// Nothing here reads a file, so that every function has its full promise; the formats of the files are in the data folder of
// `replay_expressions`, which reads them.
#![tactic(auto)]

pub mod cases;
pub mod choices;
pub mod costs;
