// The stream program on a start that lacks its last byte.
#![tactic(auto)]

use std::io;

fn main(rt: HostRuntime) -> io::Result<()> {
    stdio::run(&mut rt.stdin(), &mut rt.stdout())
}
