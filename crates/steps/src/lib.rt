// A step of the unit of 01: what an accepted command does to the state, with the report that is kept of it. Which commands are
// accepted is decided in `refusals`, and the call that puts the two together is in `unit`.
//
// No public function has a `requires`: each is defined at every value of its parameters.
#![tactic(auto)]

mod commands;
mod odometer;
mod report;
mod state;

pub use commands::accept;
pub use state::fresh;
