// Readings of packages and writings of rules as recorded files ask for them: what each call tells and leaves, compared with what the file says. It
// rests on these calls, on `recorded` for what the bytes of a file say and on `comparison`. Reading the files, whose formats are in the data folder
// of `replay_packages`, and counting is there.
// Buffers are arrays of the most that a file asks: no crate allocates.
#![tactic(auto)]

pub mod readings;
pub mod writings;
