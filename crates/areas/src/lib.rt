// Track areas (02, F-6; 001, 4.4): which events lead from one area to another, and the unit's stay in an area. Its
// types are here too.
//
// No public function has a `requires`: each is defined at every value of its parameters.
#![tactic(auto)]

mod numbers;
mod rows;
mod stays;

pub use numbers::event_of;
pub use rows::is_taken;
pub use stays::{
    area_speed, cleared_stay, covered_stay, deletes_sections, fresh_stay, passed_stay,
};

// The areas.
#[derive(Clone, Copy, PartialEq, Eq)]
pub enum Area {
    NonEquipped,
    Partial,
    HT,
    Full,
}

// The events of command 50, in the order of their numbers: a main or distant signal without full HT
// information, a GMD, a balise error that deletes HT information, a group without overlap; entry to
// non-equipped, HT and fully equipped.
#[derive(Clone, Copy, PartialEq, Eq)]
pub enum Event {
    Signal,
    GMD,
    HTDeleted,
    NoOverlap,
    ToNonEquipped,
    ToHT,
    ToFull,
}

// The stay in an area: a change of area begins another.
#[derive(Clone, Copy)]
pub struct Stay {
    pub area: Area,
    // The speed of the last GMD board of this stay, in km/h. None: no GMD was passed in it, and VMAX takes
    // the speed V_DARK of 001 in the partial area.
    pub line: Option<u16>,
    // The ground since the first group without the required overlapping information, in cm. None: no group
    // was without it.
    pub missing: Option<u16>,
}
