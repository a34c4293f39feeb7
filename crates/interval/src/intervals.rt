// The computed interval and the shown one.
ghost use Rattle.std.specs.Prelude.{◌≡◌, ◌&&◌, leb};
ghost use Rattle.interval.specs.Intervals.{interval_of, rank_of, shown_of, shown_number};

use curve::{Braking, Curve, Interval, Leads, Shown, f_reached, reached};

// Whether no lead is longer than Bf's, as with leads that are added up.
fn bf_is_longest(leads: Leads) -> bool
    ensures { result ≡ (leb leads.b leads.bf && leb leads.c leads.bf && leb leads.d leads.bf) }
{
    (leads.b <= leads.bf) & (leads.c <= leads.bf) & (leads.d <= leads.bf)
}

// The computed interval at v. Where Bf isn't reached, no boundary with a shorter lead is.
#[tactic(auto, unfolding(crate::specs::Intervals::interval_of))]
pub fn interval_of(curve: Curve, braking: Braking, v: u16) -> Interval
    ensures { result ≡ interval_of curve braking v }
{
    let Braking {
        level,
        leads,
        margin,
    } = braking;
    let bf = reached(curve, level, v, leads.bf);
    if !bf & bf_is_longest(leads) {
        Interval::A
    } else if f_reached(curve, level, margin, v) {
        Interval::F
    } else if reached(curve, level, v, 0) {
        Interval::E
    } else if reached(curve, level, v, leads.d) {
        Interval::D
    } else if reached(curve, level, v, leads.c) {
        Interval::C
    } else if reached(curve, level, v, leads.b) {
        Interval::B
    } else if bf {
        Interval::Bf
    } else {
        Interval::A
    }
}

// The place of an interval in the order A, Bf, B, C, D, E, F, from 0.
pub fn rank_of(interval: Interval) -> u8
    ensures { result ≡ rank_of interval }
{
    match interval {
        Interval::A => 0,
        Interval::Bf => 1,
        Interval::B => 2,
        Interval::C => 3,
        Interval::D => 4,
        Interval::E => 5,
        Interval::F => 6,
    }
}

// How an interval is shown, of a curve once in B or later (`past`) or not.
#[tactic(auto, using(crate::proofs::Order::earlier), unfolding(crate::specs::Intervals::shown_of))]
pub fn shown_of(past: bool, interval: Interval) -> Shown
    ensures { result ≡ shown_of past interval }
{
    if past & (interval < Interval::B) {
        Shown::Ab
    } else {
        Shown::Computed(interval)
    }
}

// The report's number for a shown interval. `Shown` and `u8` are not this crate's, so an impl of `From` can't stand here.
pub fn shown_number(shown: Shown) -> u8
    ensures { result ≡ shown_number shown }
{
    match shown {
        Shown::Ab => 2,
        Shown::Computed(interval) => interval as u8,
    }
}
