// Runs the printing program on each file that data/names lists, in that order, and writes the file's name before what is
// printed for it. It rests on `printing`, and on `replay` for the list; what is in the files is in data/README.md.
#![tactic(auto)]

use replay::named;
use std::io;

fn main(rt: HostRuntime) -> io::Result<()> {
    named::run_each(&rt, |file| printing::run(file, &mut io::writer(&rt)))
}
