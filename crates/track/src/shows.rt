// The shown curve, and how far to its next change.
ghost use Rattle.std.specs.Prelude.{◌≡◌};
ghost use mathlib.Core.List.{zip_with};
ghost use Rattle.rules.specs.Reports.{change_of};
ghost use Rattle.rules.specs.Shows.{candidate, no_candidate, goes_before, chosen_of, chosen_from, shown_as, showing_of};
ghost use Rattle.track.specs.Among.{chosen_among};

use crate::whole::braking_of;
use boards::as_curve;
use curve::{Curve, Judged, Shown, free_curve};
use places::{CURVES, PLACES};
use records::{EtRecord, RECORDS};
use rules::{Candidate, Kept, Train};
use std::cmp::Reverse;

fn no_candidate() -> Candidate
    ensures { result ≡ no_candidate }
{
    Candidate {
        et: false,
        curve: free_curve(),
        judged: places::none_judged(),
    }
}

// Latest computed interval, then lowest permitted speed, then a curve, then lowest id.
fn goes_before(x: Candidate, y: Candidate) -> bool
    ensures { result ≡ goes_before x y }
{
    let first = (
        Reverse(x.judged.interval),
        x.judged.permitted,
        x.et,
        x.curve.id,
    );
    let second = (
        Reverse(y.judged.interval),
        y.judged.permitted,
        y.et,
        y.curve.id,
    );
    first < second
}

// The one of two that is shown; a place that holds no curve isn't.
#[tactic(auto, unfolding(rules::specs::Shows::chosen_of))]
fn chosen_of(best: Candidate, next: Candidate) -> Candidate
    ensures { result ≡ chosen_of best next }
{
    if next.judged.held & (!best.judged.held | goes_before(next, best)) {
        next
    } else {
        best
    }
}

// The shown one of this and these curves, each with what it says; `et` is whether they are records.
fn chosen_on(shown: Candidate, et: bool, curves: &[Curve], judged: &[Judged]) -> Candidate
    ensures { result ≡ chosen_from shown (zip_with (candidate et) curves.now judged.now) }
{
    curves.iter().zip(judged).fold(shown, |best, (curve, j)| {
        chosen_of(
            best,
            Candidate {
                et,
                curve: *curve,
                judged: *j,
            },
        )
    })
}

// The shown one, or none: of the curves and the records, by what all that may be curves say.
pub fn chosen(
    curves: [Curve; PLACES],
    records: [EtRecord; RECORDS],
    judged: [Judged; CURVES],
) -> Candidate
    ensures { result ≡ chosen_among curves records judged }
{
    let shown = chosen_on(no_candidate(), false, &curves, &judged);
    chosen_on(
        shown,
        true,
        &records.map(|et| as_curve(et)),
        &judged[PLACES..],
    )
}

// The shown curve's interval as shown.
#[tactic(auto, unfolding(rules::specs::Shows::shown_as))]
fn shown_as(shown: Candidate) -> Shown
    ensures { result ≡ shown_as shown }
{
    interval::shown_of(shown.curve.past, shown.judged.interval)
}

// What is shown: its interval, or no curve.
#[tactic(auto, unfolding(rules::specs::Shows::showing_of))]
pub fn showing_of(shown: Candidate) -> Option<Shown>
    ensures { result ≡ showing_of shown }
{
    if shown.judged.held {
        Some(shown_as(shown))
    } else {
        None
    }
}

// The most cm that can still be covered with no change of the shown curve's computed interval.
#[tactic(auto, unfolding(rules::specs::Reports::change_of))]
pub fn change_of(train: Train, kept: Kept, shown: Candidate) -> u32
    ensures { result ≡ change_of train kept shown }
{
    if shown.judged.held {
        let braking = braking_of(train, kept.halka);
        interval::to_change(shown.curve, braking, kept.speed)
    } else {
        curve::NEVER
    }
}
