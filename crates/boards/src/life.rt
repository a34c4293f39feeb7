// One ET record: what ground and signals make of it, and the curve that it is.
ghost use Rattle.std.specs.Prelude.{◌≡◌};
ghost use Rattle.records.specs.Lives.{is_undecided, is_terminated, is_effective, is_superseded, free_record, as_curve, covered_by, moved_record, is_controlled, classed, passed_record};
ghost use Rattle.rules.specs.Odometer.{noted_record};

use crate::letters::{classed_by, controller_of, route_for};
use curve::{Curve, Judged, moved_by};
use holding::Place;
use interval::noted;
use records::{Condition, EtRecord, Route, Signal};

fn is_undecided(condition: Condition) -> bool
    ensures { result ≡ is_undecided condition }
{
    matches!(condition, Condition::Undecided(_))
}

fn is_terminated(condition: Condition) -> bool
    ensures { result ≡ is_terminated condition }
{
    matches!(condition, Condition::Terminated)
}

// Whether a record of this condition is a curve.
fn is_effective(condition: Condition) -> bool
    ensures { result ≡ is_effective condition }
{
    matches!(
        condition,
        Condition::DefinitelyActive | Condition::PreliminaryActive | Condition::Locked
    )
}

// Whether a repeater may take the place of a record of this condition.
pub(crate) fn is_superseded(condition: Condition) -> bool
    ensures { result ≡ is_superseded condition }
{
    matches!(
        condition,
        Condition::DefinitelyActive | Condition::PreliminaryActive
    )
}

// A place that holds no record.
pub fn free_record() -> EtRecord
    ensures { result ≡ free_record }
{
    EtRecord::free()
}

// The curve that a record is: held where the record is held and active or locked.
pub fn as_curve(et: EtRecord) -> Curve
    ensures { result ≡ as_curve et }
{
    Curve {
        held: et.curve.held & is_effective(et.condition),
        ..et.curve
    }
}

// A condition after so many cm moved: undecided for 100 m, then locked.
fn covered_by(moved: u16, condition: Condition) -> Condition
    ensures { result ≡ covered_by moved condition }
{
    match condition {
        Condition::Undecided(covered) => {
            let sum = u32::from(covered) + u32::from(moved);
            if 10000 <= sum {
                return Condition::Locked;
            }
            Condition::Undecided(sum as u16)
        }
        decided => decided,
    }
}

// A place after so many cm moved; one that holds no record stays as it is.
#[tactic(auto, unfolding(records::specs::Lives::moved_record))]
pub fn moved_record(moved: u16, et: EtRecord) -> EtRecord
    ensures { result ≡ moved_record moved et }
{
    if et.curve.held {
        EtRecord {
            curve: moved_by(et.curve, moved),
            condition: covered_by(moved, et.condition),
            ..et
        }
    } else {
        et
    }
}

// Whether a signal decides a record: it is held and undecided, and the signal is its controlling one.
#[tactic(auto, using(records::proofs::Equality::same_signal), unfolding(records::specs::Lives::is_controlled))]
fn is_controlled(signal: Signal, et: EtRecord) -> bool
    ensures { result ≡ is_controlled signal et }
{
    et.curve.held & is_undecided(et.condition) & (signal == controller_of(et.category))
}

// A record of a new condition: the place of a terminated one is free.
#[tactic(auto, unfolding(records::specs::Lives::classed))]
fn classed(condition: Condition, et: EtRecord) -> EtRecord
    ensures { result ≡ classed condition et }
{
    if is_terminated(condition) {
        free_record()
    } else {
        EtRecord { condition, ..et }
    }
}

// A place after a signal is passed.
#[tactic(auto, using(records::proofs::Equality::same_route), unfolding(records::specs::Lives::passed_record))]
pub fn passed_record(signal: Signal, route: Route, et: EtRecord) -> EtRecord
    ensures { result ≡ passed_record signal route et }
{
    if is_controlled(signal, et) {
        let own = route == route_for(et.category);
        classed(classed_by(signal, own), et)
    } else {
        et
    }
}

// A place with its past in B noted; one that isn't a curve is judged A, which notes nothing.
pub fn noted_record(et: EtRecord, j: Judged) -> EtRecord
    ensures { result ≡ noted_record et j }
{
    EtRecord {
        curve: noted(et.curve, j.interval),
        ..et
    }
}
