// The stream program of 01: raw command bytes on standard input, a line for each answer on standard output.
#![tactic(auto)]

use std::io;

fn main(rt: HostRuntime) -> io::Result<()> {
    stdio::run(&mut rt.stdin(), &mut rt.stdout())
}
