// The printing program: from standard input to standard output. It rests on `printing`.
#![tactic(auto)]

use std::io;

fn main(rt: HostRuntime) -> io::Result<()> {
    printing::run(&mut rt.stdin(), &mut rt.stdout())
}
