// What the track has told: the places of curves and sections, VMAX, the permitted speed and the shown curve.
//
// No public function has a `requires`: each is defined at every value of its parameters.
#![tactic(auto)]

pub mod curves;
pub mod sections;
pub mod shows;
pub mod whole;
