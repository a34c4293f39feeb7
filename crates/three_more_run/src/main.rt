// The stream program on a whole command and three bytes more.
#![tactic(auto)]

use std::io;

fn main(rt: HostRuntime) -> io::Result<()> {
    stdio::run(&mut rt.stdin(), &mut rt.stdout())
}
