// One curve at one report.
ghost use Rattle.std.specs.Prelude.{◌≡◌};
ghost use Rattle.interval.specs.Judging.{is_fast, brakes_at, judged_of, noted_at};

use crate::intervals::interval_of;
use crate::permitted::permitted_of;
use curve::{Braking, Curve, Interval, Judged, Kind};

// Whether v is high enough for a curve to brake.
#[tactic(auto, unfolding(crate::specs::Judging::is_fast))]
fn is_fast(curve: Curve, v: u16) -> bool
    ensures { result ≡ is_fast curve v }
{
    let speed = curve.speed as u32;
    let u = 9 * v as u32;
    match curve.kind {
        Kind::SpeedTarget => 250 * (speed + 10) <= u,
        Kind::ExpectStop => 250 * speed < u,
    }
}

// Whether a curve brakes in an interval at v.
#[tactic(auto, using(crate::proofs::Order::not_later), unfolding(crate::specs::Judging::brakes_at))]
pub fn brakes_at(curve: Curve, interval: Interval, v: u16) -> bool
    ensures { result ≡ brakes_at curve interval v }
{
    (Interval::D <= interval) & is_fast(curve, v)
}

// A curve's interval, permitted speed and braking at v.
#[tactic(auto, unfolding(crate::specs::Judging::judged_of))]
pub fn judge(curve: Curve, braking: Braking, v: u16) -> Judged
    ensures { result ≡ judged_of braking v curve }
{
    let interval = interval_of(curve, braking, v);
    Judged {
        held: curve.held,
        interval,
        permitted: permitted_of(curve, braking.level, braking.leads.permitted),
        brakes: brakes_at(curve, interval, v),
    }
}

// A curve with its past in B noted.
#[tactic(auto, using(crate::proofs::Order::not_later))]
pub fn noted(curve: Curve, interval: Interval) -> Curve
    ensures { result ≡ noted_at curve interval }
{
    Curve {
        past: curve.past | (Interval::B <= interval),
        ..curve
    }
}
