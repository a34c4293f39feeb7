// A stream as the unit is given it: portion by portion, out of bytes that come in reads.
//
// No public function has a `requires`: each is defined at every input, and what a writer does to `tell` a portion at every room.
#![tactic(auto)]

mod bytes;
mod next;
mod telling;

// The bytes of input that a program has room for.
pub const INPUT: usize = 16384;

pub use bytes::{part, to_front};
pub use next::{Portion, next_portion};
pub use telling::{Handed, Tell, Told, hand_on};
