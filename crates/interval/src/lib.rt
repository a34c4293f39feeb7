// What a curve of 01, "Curves", says at a speed: its computed and its shown interval, its permitted speed, whether it
// brakes, and how far it is to the next change of interval (02, F-1). Every function answers at every value of its
// parameters.
#![tactic(auto)]

mod change;
mod intervals;
mod judging;
mod permitted;

pub use change::to_change;
pub use intervals::{interval_of, rank_of, shown_number, shown_of};
pub use judging::{brakes_at, judge, noted};
pub use permitted::{TOP, permitted_of};
