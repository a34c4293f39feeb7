// The whole track, VMAX and the permitted speed.
ghost use Rattle.std.specs.Prelude.{◌≡◌, min, cond};
ghost use mathlib.Core.List.{map, foldr};
ghost use Rattle.rules.specs.Places.{no_sections, empty_track, fresh_track, cleared_track, all_curves, passed_track, moved_track};
ghost use Rattle.track.specs.Among.{noted_among};
ghost use Rattle.rules.specs.Speeds.{braking_of, judged_now, section_speed, stop_speed, vmax_of, permitted_speed};

use crate::sections::{free_section, move_sections};
use areas::{
    Event, Stay, area_speed, cleared_stay, covered_stay, deletes_sections, fresh_stay, passed_stay,
};
use boards::{move_records, no_records, note_records};
use curve::{Braking, Curve, Judged, free_curve};
use places::{CURVES, PLACES};
use rules::{Kept, Section, Track, Train};

fn no_sections() -> [Section; PLACES]
    ensures { result ≡ no_sections }
{
    [free_section(); PLACES]
}

// No curve, no section, no 40, no record, in this stay.
#[tactic(auto, unfolding(rules::specs::Places::empty_track))]
fn empty_track(stay: Stay) -> Track
    ensures { result ≡ empty_track stay }
{
    Track {
        curves: [free_curve(); PLACES],
        sections: no_sections(),
        forty: false,
        stay,
        records: no_records(),
    }
}

// After a start.
#[tactic(auto, unfolding(rules::specs::Places::fresh_track))]
pub fn fresh_track() -> Track
    ensures { result ≡ fresh_track }
{
    empty_track(fresh_stay())
}

// After CS is entered: the area is kept.
#[tactic(auto, unfolding(rules::specs::Places::cleared_track))]
pub fn cleared_track(track: Track) -> Track
    ensures { result ≡ cleared_track track }
{
    empty_track(cleared_stay(track.stay))
}

// The sections that are left: none where all are deleted.
fn sections_left(deleted: bool, sections: [Section; PLACES]) -> [Section; PLACES]
    ensures { result ≡ cond deleted no_sections sections }
{
    if deleted { no_sections() } else { sections }
}

// The track after an area event, with the command's speed.
#[tactic(auto, unfolding(rules::specs::Places::passed_track))]
pub fn passed_track(event: Event, speed: u16, track: Track) -> Track
    ensures { result ≡ passed_track event speed track }
{
    Track {
        sections: sections_left(deletes_sections(event, track.stay), track.sections),
        stay: passed_stay(event, speed, track.stay),
        ..track
    }
}

// The track after so many cm moved, of a train of this length in m.
#[tactic(auto, unfolding(rules::specs::Places::moved_track))]
pub fn moved_track(length: u16, moved: u16, track: Track) -> Track
    ensures { result ≡ moved_track length moved track }
{
    Track {
        curves: places::move_all(track.curves, moved),
        sections: move_sections(length, moved, track.sections),
        stay: covered_stay(moved, track.stay),
        records: move_records(moved, track.records),
        ..track
    }
}

// What the train brings to every curve.
#[tactic(auto, unfolding(rules::specs::Speeds::braking_of))]
pub fn braking_of(train: Train, halka: bool) -> Braking
    ensures { result ≡ braking_of train halka }
{
    Braking {
        level: curve::level_of(train.full, train.soft, halka),
        leads: curve::leads_of(train.times),
        margin: train.margin,
    }
}

// All that may be curves: the curves, and the records as curves.
#[tactic(auto, unfolding(rules::specs::Places::all_curves))]
pub fn all_curves(track: Track) -> [Curve; CURVES]
    ensures { result ≡ all_curves track }
{
    boards::all_curves(track.curves, track.records)
}

// What every curve says at the last odometer figures.
#[tactic(auto, unfolding(rules::specs::Speeds::judged_now))]
pub fn judge_now(train: Train, kept: Kept, curves: [Curve; CURVES]) -> [Judged; CURVES]
    ensures { result ≡ judged_now train kept curves }
{
    places::judge_all(curves, braking_of(train, kept.halka), kept.speed)
}

// The track with every past in B noted, by what all that may be curves say.
#[tactic(auto, unfolding(crate::specs::Among::noted_among))]
pub fn note_track(track: Track, judged: [Judged; CURVES]) -> Track
    ensures { result ≡ noted_among track judged }
{
    Track {
        curves: places::note_all(track.curves, judged),
        records: note_records(track.records, judged),
        ..track
    }
}

// A section's speed; a place that holds none leaves the train's.
fn section_speed(speed: u16, section: Section) -> u16
    ensures { result ≡ section_speed speed section }
{
    if section.held { section.speed } else { speed }
}

fn stop_speed(speed: u16, forty: bool) -> u16
    ensures { result ≡ stop_speed speed forty }
{
    if forty { 40 } else { speed }
}

// The least of a train's speed and its sections'.
fn least_speed(speed: u16, sections: [Section; PLACES]) -> u16
    ensures { result ≡ foldr min speed (map (section_speed speed) sections) }
{
    sections.iter().fold(speed, |least, section| {
        least.min(section_speed(speed, *section))
    })
}

#[tactic(auto, unfolding(rules::specs::Speeds::vmax_of))]
pub fn vmax_of(train: Train, track: Track) -> u16
    ensures { result ≡ vmax_of train track }
{
    let stopped = stop_speed(train.speed, track.forty);
    area_speed(train.speed, track.stay).min(stopped.min(least_speed(train.speed, track.sections)))
}

#[tactic(auto, unfolding(rules::specs::Speeds::permitted_speed))]
pub fn permitted_speed(vmax: u16, judged: [Judged; CURVES]) -> u16
    ensures { result ≡ permitted_speed vmax judged }
{
    vmax.min(places::least_permitted(judged))
}
