// Replays recorded tables against the transform and the way back: each file of data/ holds tables with the coefficients
// that another program gave for them, and a line for each file and each way says how many were compared and how many
// differ. The answers in the files named wrong differ on purpose, and the lines must say so. What a file lacks, because it is cut short or damaged,
// counts as a difference. It rests on `recorded_transforms`, which compares, and on `replay` for the files; the formats of the files are in
// data/README.md.
// Buffers are arrays of the most that a file asks: no crate allocates.
#![tactic(auto)]

mod files;
mod refusals;

use crate::files::{Back, There, Way, samples, small_tables};
use replay::items::replay;
use std::io;
use std::rt::Files;

// `kind` says in a line which way was taken.
fn replay_files<W: Way, R: Files + Print + Eprint>(rt: &R, kind: &str) -> io::Result<()> {
    replay(rt, "small.bin", kind, |file| small_tables::<W, _>(file))?;
    for path in ["samples.bin", "sympy.bin", "printed.bin"] {
        replay(rt, path, kind, |file| samples::<W, _>(file))?;
    }
    replay(
        rt,
        "wrong_small.bin",
        kind,
        |file| small_tables::<W, _>(file),
    )?;
    replay(rt, "wrong_samples.bin", kind, |file| samples::<W, _>(file))
}

fn main(rt: HostRuntime) -> io::Result<()> {
    replay_files::<There, _>(&rt, "tables")?;
    replay_files::<Back, _>(&rt, "tables back")?;
    refusals::replay(&rt)
}
