// The places of curves: what is done to all of them, or asked of all.
#![tactic(auto)]

ghost use Rattle.std.specs.Prelude.{◌≡◌};
ghost use Rattle.places.specs.Places.{moved_here, moved_all, none_judged, judged_here, judged_all, noted_all, permitted_here, least_permitted, brakes_from, any_brakes};

use curve::{Braking, Curve, Interval, Judged, moved_by};
use interval::{TOP, judge, noted};

// How many curves a unit holds.
pub const PLACES: usize = 16;

// How many may be curves at once: those, and the eight ET records, which are curves while they are active or locked.
pub const CURVES: usize = 24;

// A place after so many cm moved; one that holds no curve stays as it is.
fn moved_here(curve: Curve, moved: u16) -> Curve
    ensures { result ≡ moved_here moved curve }
{
    if curve.held {
        moved_by(curve, moved)
    } else {
        curve
    }
}

// Every curve after so many cm moved. Here and below a loop is quicker than an array's `map`, which moves the elements out first.
pub fn move_all(curves: [Curve; PLACES], moved: u16) -> [Curve; PLACES]
    ensures { result ≡ moved_all moved curves }
{
    let mut next = curves;
    for curve in &mut next {
        *curve = moved_here(*curve, moved);
    }
    next
}

// What a place says that holds no curve.
pub fn none_judged() -> Judged
    ensures { result ≡ none_judged }
{
    Judged {
        held: false,
        interval: Interval::A,
        permitted: TOP,
        brakes: false,
    }
}

// What a place says at v.
fn judge_here(curve: Curve, braking: Braking, v: u16) -> Judged
    ensures { result ≡ judged_here braking v curve }
{
    if curve.held {
        judge(curve, braking, v)
    } else {
        none_judged()
    }
}

// What every curve says at v.
pub fn judge_all(curves: [Curve; CURVES], braking: Braking, v: u16) -> [Judged; CURVES]
    ensures { result ≡ judged_all braking v curves }
{
    let mut judged = [none_judged(); CURVES];
    for (i, curve) in curves.iter().enumerate() {
        judged[i] = judge_here(*curve, braking, v);
    }
    judged
}

// Every curve with its past in B noted; a place that holds none is judged A, which notes nothing.
pub fn note_all(curves: [Curve; PLACES], judged: [Judged; CURVES]) -> [Curve; PLACES]
    ensures { result ≡ noted_all curves judged }
{
    let mut next = curves;
    for (i, curve) in next.iter_mut().enumerate() {
        *curve = noted(*curve, judged[i].interval);
    }
    next
}

fn permitted_here(j: Judged) -> u16
    ensures { result ≡ permitted_here j }
{
    if j.held { j.permitted } else { TOP }
}

// The least of the curves' permitted speeds, and 300 where there is none.
pub fn least_permitted(judged: [Judged; CURVES]) -> u16
    ensures { result ≡ least_permitted judged }
{
    judged
        .iter()
        .fold(TOP, |least, j| least.min(permitted_here(*j)))
}

#[tactic(auto, using(interval::proofs::Order::not_later))]
fn brakes_from(interval: Interval, j: Judged) -> bool
    ensures { result ≡ brakes_from interval j }
{
    j.held & j.brakes & (interval <= j.interval)
}

// Whether a curve brakes in this interval or a later one.
pub fn any_brakes(interval: Interval, judged: [Judged; CURVES]) -> bool
    ensures { result ≡ any_brakes interval judged }
{
    judged.iter().any(|j| brakes_from(interval, *j))
}
