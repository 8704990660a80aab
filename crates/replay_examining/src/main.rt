// Runs the examining command on each file that data/names lists, in that order, and writes the file's name before what is
// said for it. It rests on `examining`, and on `replay` for the list; what is in the files is in data/README.md.
#![tactic(auto)]

use replay::named;
use std::io;

fn main(rt: HostRuntime) -> io::Result<()> {
    named::run_each(&rt, |file| examining::run(file, &mut io::writer(&rt)))
}
