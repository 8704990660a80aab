// Replays recorded readings of packages and writings of rules: each file of data/ holds calls with what a model of the documents answers to them, and
// a line for each file says how many were compared and how many differ. The answers in the files named wrong differ on purpose, and the lines must
// say so. It rests on `recorded_packages`, which compares, and on `replay` for the files; the formats of the files are in data/README.md.
// Buffers are arrays of the most that a file asks: no crate allocates.
#![tactic(auto)]

mod readings;
mod writings;

use replay::items::{replay, replay_items};
use std::io;

fn main(rt: HostRuntime) -> io::Result<()> {
    for path in [
        "full_small.bin",
        "full_samples.bin",
        "cuts.bin",
        "changes.bin",
        "edges.bin",
    ] {
        replay(&rt, path, "readings", readings::compared)?;
    }
    replay_items::<{ writings::HEAD }, _, _>(&rt, "writings.bin", "writings", writings::is_same)?;
    replay(&rt, "wrong_readings.bin", "readings", readings::compared)?;
    replay_items::<{ writings::HEAD }, _, _>(
        &rt,
        "wrong_writings.bin",
        "writings",
        writings::is_same,
    )
}
