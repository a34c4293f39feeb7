// ET records (02, F-7; 001, 4.6.8): what becomes of one indefinite ET record, for the code to be proved against. Its types
// stand here, its rules in specs/, and what is promised of a record in specs/ too, proved in proofs/. Only the derived
// comparisons run.
#![tactic(auto)]

// How many records a unit holds.
pub const RECORDS: usize = 8;

// The categories ETxy, in the order of their numbers: x the route, y the signal that controls the record.
#[derive(Clone, Copy, PartialEq, Eq)]
pub enum Category {
    RF,
    RH,
    GF,
    GH,
}

// The kinds of a signal.
#[derive(Clone, Copy, PartialEq, Eq)]
pub enum Signal {
    Main,
    Distant,
}

// The routes: straight (R) and diverging (G).
#[derive(Clone, Copy, PartialEq, Eq)]
pub enum Route {
    Straight,
    Diverging,
}

// The conditions of a record: undecided, with the ground since its board in cm, and those of table 4.6-2 of 001. A
// place that holds no record is terminated.
#[derive(Clone, Copy)]
pub enum Condition {
    Undecided(u16),
    Terminated,
    DefinitelyActive,
    PreliminaryPassive,
    PreliminaryActive,
    Locked,
}

// A record, or a place that holds none. `curve` has its figures, and whether the place holds it.
#[derive(Clone, Copy)]
pub struct EtRecord {
    pub curve: curve::Curve,
    pub category: Category,
    pub condition: Condition,
}
