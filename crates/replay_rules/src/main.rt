// Replays recorded rules against the compiler, the examiner and raw costing: each file of data/ holds tables with the
// expression that the original Rust makes of them, and a line for each file says how many were compared and how many differ.
// The answers in the files named wrong differ on purpose, and the lines must say so. What a file lacks, because it is cut short or damaged, counts as
// a difference. It rests on `recorded_rules`, which compares, and on `replay` for the files; the formats of the files are in data/README.md.
// Buffers are arrays of the most that a file asks: no crate allocates.
#![tactic(auto)]

mod one_rule;
mod refusals;

use crate::one_rule::{SAMPLE_HEAD, is_same_sample, small_tables};
use replay::items::{replay, replay_items};
use std::io;
use std::rt::Files;

fn replay_files<R: Files + Print + Eprint>(rt: &R, small: &str, samples: &str) -> io::Result<()> {
    replay(rt, small, "rules", small_tables)?;
    replay_items::<SAMPLE_HEAD, _, _>(rt, samples, "rules", is_same_sample)
}

fn main(rt: HostRuntime) -> io::Result<()> {
    replay_files(&rt, "small.bin", "samples.bin")?;
    refusals::replay(&rt)?;
    replay_files(&rt, "wrong_small.bin", "wrong_samples.bin")
}
