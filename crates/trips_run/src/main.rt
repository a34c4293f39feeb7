// The stream program on a recorded stream: trips that steer into every rule, and 01's figures among them.
#![tactic(auto)]

use std::io;

fn main(rt: HostRuntime) -> io::Result<()> {
    stdio::run(&mut rt.stdin(), &mut rt.stdout())
}
