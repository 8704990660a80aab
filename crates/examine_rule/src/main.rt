// The examining command: from standard input to standard output. It rests on `examining`.
#![tactic(auto)]

use std::io;

fn main(rt: HostRuntime) -> io::Result<()> {
    examining::run(&mut rt.stdin(), &mut rt.stdout())
}
