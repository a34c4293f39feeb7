// The trip sheet (02, F-5): lines of accepted commands on pages.
//
// No public function has a `requires`: each is defined at every sheet, number, report and room.
#![tactic(auto)]

mod lines;
mod pages;

pub use lines::{LINE, header_of, line_for};
pub use pages::{ADDED, Put, fresh, print};
