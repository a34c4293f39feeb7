// The curves of 01, "Curves": decelerations, leads, boundaries, and the ground left to them. Its types are here too.
//
// Speeds v are in cm/s, limits and targets in whole km/h, distances in cm, times in tenths of a
// second, decelerations in mm/s². Every function answers at every value of its parameters.
#![tactic(auto)]

mod boundary;
mod deceleration;
mod free;
mod lead;
mod moved;
mod rule;

pub use boundary::{f_reach_of, f_reached, reach_of, reached, reached_at_kmh};
pub use deceleration::{deceleration_of, gradient_from, level_of};
pub use free::free_curve;
pub use lead::leads_of;
pub use moved::moved_by;
pub use rule::NEVER;

// The kinds of a curve: 0 speed target, 1 Expect Stop.
#[derive(Clone, Copy, PartialEq, Eq, Default)]
pub enum Kind {
    #[default]
    SpeedTarget,
    ExpectStop,
}

#[derive(Clone, Copy, PartialEq, Eq, Default)]
pub enum Direction {
    #[default]
    Up,
    Down,
}

// A gradient in ‰.
#[derive(Clone, Copy, Default)]
pub struct Gradient {
    pub direction: Direction,
    pub size: u8,
}

// A curve, or a place that holds none. `distance` is the remaining d, `speed` the target or the
// release speed, `past` whether it was once in B or later.
#[derive(Clone, Copy, Default)]
pub struct Curve {
    pub distance: u32,
    pub speed: u16,
    pub held: bool,
    pub id: u8,
    pub kind: Kind,
    pub gradient: Gradient,
    pub past: bool,
}

// T_B and the gaps gC, gP and gBf; `extra` is what the leads add to T_B until a brake test has passed.
#[derive(Clone, Copy)]
pub struct Times {
    pub brake: u8,
    pub c: u8,
    pub permitted: u8,
    pub bf: u8,
    pub extra: u8,
}

// The leads of the boundaries; E's is 0.
#[derive(Clone, Copy)]
pub struct Leads {
    pub d: u16,
    pub c: u16,
    pub permitted: u16,
    pub b: u16,
    pub bf: u16,
}

// What the train brings to every curve: deceleration on level track, leads, F margin in km/h.
#[derive(Clone, Copy)]
pub struct Braking {
    pub level: u16,
    pub leads: Leads,
    pub margin: u8,
}

// The computed intervals, with their numbers in a report.
#[derive(Clone, Copy, PartialEq, Eq, PartialOrd, Ord)]
pub enum Interval {
    A = 1,
    Bf = 3,
    B = 4,
    C = 5,
    D = 6,
    E = 7,
    F = 8,
}

// The intervals as they are shown.
#[derive(Clone, Copy, PartialEq, Eq)]
pub enum Shown {
    Ab,
    Computed(Interval),
}

// What a curve says at a speed.
#[derive(Clone, Copy)]
pub struct Judged {
    pub held: bool,
    pub interval: Interval,
    pub permitted: u16,
    pub brakes: bool,
}
