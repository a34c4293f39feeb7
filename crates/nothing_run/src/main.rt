// The stream program on no bytes at all.
#![tactic(auto)]

use std::io;

fn main(rt: HostRuntime) -> io::Result<()> {
    stdio::run(&mut rt.stdin(), &mut rt.stdout())
}
