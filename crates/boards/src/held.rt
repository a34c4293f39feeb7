// The places of ET records: a new one, an ended one, which ids are held; signals, ground and notes at all of them.
// What places have in common is `holding`'s.
ghost use Rattle.std.specs.Prelude.{◌≡◌, not, ◌&&◌, ◌++◌, map, drop};
ghost use Rattle.places.specs.Places.{places};
ghost use Rattle.records.specs.Lives.{is_superseded, as_curve, moved_record};
ghost use Rattle.rules.specs.Odometer.{noted_records};
ghost use Rattle.rules.specs.Places.{no_records, is_record, holds_record, all_records_held, keeps_record, given_record, ended_record, signalled_records};

use crate::life::{as_curve, is_superseded, moved_record, noted_record, passed_record};
use curve::{Curve, Judged, free_curve};
use holding::Place;
use places::{CURVES, PLACES};
use records::{EtRecord, RECORDS, Route, Signal};

// No record at any place.
pub fn no_records() -> [EtRecord; RECORDS]
    ensures { result ≡ no_records }
{
    [EtRecord::free(); RECORDS]
}

// Whether a place holds the id.
pub fn holds_record(id: u8, ets: [EtRecord; RECORDS]) -> bool
    ensures { result ≡ holds_record id ets }
{
    holding::holds(id, &ets)
}

// Whether every place holds a record.
pub fn all_records_held(ets: [EtRecord; RECORDS]) -> bool
    ensures { result ≡ all_records_held ets }
{
    holding::all_held(&ets)
}

// Whether this place holds the id, and no repeater may take it.
fn is_kept(id: u8, et: EtRecord) -> bool
    ensures { result ≡ (is_record id et && not (is_superseded et.condition)) }
{
    holding::is_at(id, et) & !is_superseded(et.condition)
}

// Whether a place holds the id, and no repeater may take it.
pub fn keeps_record(id: u8, ets: [EtRecord; RECORDS]) -> bool
    ensures { result ≡ keeps_record id ets }
{
    ets.iter().any(|et| is_kept(id, *et))
}

// A new record among the others.
#[tactic(auto, unfolding(rules::specs::Places::given_record))]
pub fn give_record(new: EtRecord, ets: [EtRecord; RECORDS]) -> [EtRecord; RECORDS]
    ensures { result ≡ given_record new ets }
{
    let mut next = ets;
    holding::give(new, &mut next);
    next
}

// The records without the one of this id.
#[tactic(auto, unfolding(rules::specs::Places::ended_record))]
pub fn end_record(id: u8, ets: [EtRecord; RECORDS]) -> [EtRecord; RECORDS]
    ensures { result ≡ ended_record id ets }
{
    let mut next = ets;
    holding::end(id, &mut next);
    next
}

// The records after a signal is passed, for this route.
pub fn pass_signal(signal: Signal, route: Route, ets: [EtRecord; RECORDS]) -> [EtRecord; RECORDS]
    ensures { result ≡ signalled_records signal route ets }
{
    ets.map(|et| passed_record(signal, route, et))
}

// The records after so many cm moved: at every report, so by the loop that is quicker than `map`.
pub fn move_records(moved: u16, ets: [EtRecord; RECORDS]) -> [EtRecord; RECORDS]
    ensures { result ≡ map (moved_record moved) ets }
{
    let mut next = ets;
    for et in &mut next {
        *et = moved_record(moved, *et);
    }
    next
}

// The records with their past in B noted; what they say as curves stands behind what the curves say. It goes by the index: of
// a loop over `iter_mut` zipped with a slice, the checker tells a proof nothing of the slice's element.
pub fn note_records(ets: [EtRecord; RECORDS], judged: [Judged; CURVES]) -> [EtRecord; RECORDS]
    ensures { result ≡ noted_records ets (drop places judged) }
{
    let mut next = ets;
    for (i, et) in next.iter_mut().enumerate() {
        *et = noted_record(*et, judged[PLACES + i]);
    }
    next
}

// All that may be curves: the curves, and the records as curves.
pub fn all_curves(curves: [Curve; PLACES], ets: [EtRecord; RECORDS]) -> [Curve; CURVES]
    ensures { result ≡ curves ++ map as_curve ets }
{
    let mut all = [free_curve(); CURVES];
    all[..PLACES].copy_from_slice(&curves);
    all[PLACES..].copy_from_slice(&ets.map(as_curve));
    all
}
