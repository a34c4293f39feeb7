// Runs recorded curves through the curve rules and prints a line for each record; fields.rt has the bytes of one.
#![tactic(auto)]

mod fields;

use curve::{Braking, Curve, Interval, Judged, Kind, free_curve};
use fields::{braking_of, curve_of, moved_of, place_of, speed_of};
use places::{CURVES, PLACES};
use std::io;
use std::io::{Read, Write};

fn kind_number(kind: Kind) -> u8 {
    match kind {
        Kind::SpeedTarget => 0,
        Kind::ExpectStop => 1,
    }
}

fn interval_name(interval: Interval) -> &'static str {
    match interval {
        Interval::A => "A",
        Interval::Bf => "Bf",
        Interval::B => "B",
        Interval::C => "C",
        Interval::D => "D",
        Interval::E => "E",
        Interval::F => "F",
    }
}

// A word that stands only where it holds.
fn put_flag(out: &mut impl Write, name: &str, holds: bool) -> io::Result<()> {
    if holds { write!(out, "{name}") } else { Ok(()) }
}

fn put_curve(out: &mut impl Write, c: Curve) -> io::Result<()> {
    write!(
        out,
        " kind {} d {} speed {}",
        kind_number(c.kind),
        c.distance,
        c.speed
    )
}

// What a curve says, with its past in B noted.
fn put_judged(out: &mut impl Write, c: Curve, j: Judged) -> io::Result<()> {
    let interval = j.interval;
    let shown = interval::shown_of(c.past, interval);
    write!(
        out,
        ": {} shown {} permitted {}",
        interval_name(interval),
        interval::shown_number(shown),
        j.permitted
    )?;
    put_flag(out, " brakes", j.brakes)?;
    put_flag(out, " past", c.past)
}

// Whether the permitted boundary is reached at v.
fn is_over(c: Curve, braking: Braking, v: u16) -> bool {
    let leads = braking.leads;
    curve::reached(c, braking.level, v, leads.permitted)
}

// Judges the record's curve alone.
fn judge_one(out: &mut impl Write, r: &[u8]) -> io::Result<()> {
    let v = speed_of(r);
    let braking = braking_of(r);
    let c = curve::moved_by(curve_of(r, true), moved_of(r));
    let b = curve::deceleration_of(braking.level, c.gradient);
    let j = interval::judge(c, braking, v);
    write!(out, "v {v} b {b}")?;
    put_curve(out, c)?;
    put_judged(out, interval::noted(c, j.interval), j)?;
    put_flag(out, " over", is_over(c, braking, v))?;
    writeln!(out, " left {}", interval::to_change(c, braking, v))
}

// Puts the record's curve into its place; a place from 16 on is none.
fn put_in_place(
    out: &mut impl Write,
    r: &[u8],
    held: bool,
    curves: [Curve; PLACES],
) -> io::Result<[Curve; PLACES]> {
    let c = curve_of(r, held);
    let at = place_of(r);
    let mut next = curves;
    if at < PLACES {
        next[at] = c;
    }
    write!(out, "place {at}")?;
    put_curve(out, c)?;
    put_flag(out, " freed", !held)?;
    writeln!(out)?;
    Ok(next)
}

// What all places say together.
fn put_all(out: &mut impl Write, v: u16, judged: [Judged; CURVES]) -> io::Result<()> {
    write!(
        out,
        "all v {v}: permitted {} D {} E {} F {}",
        places::least_permitted(judged),
        u8::from(places::any_brakes(Interval::D, judged)),
        u8::from(places::any_brakes(Interval::E, judged)),
        u8::from(places::any_brakes(Interval::F, judged))
    )
}

// What one place says, of all that were moved, judged and noted.
fn put_place(
    out: &mut impl Write,
    at: usize,
    noted: [Curve; PLACES],
    judged: [Judged; CURVES],
) -> io::Result<()> {
    write!(out, " place {at}")?;
    if at < PLACES {
        let c = noted[at];
        let j = judged[at];
        if j.held {
            put_curve(out, c)?;
            return put_judged(out, c, j);
        }
    }
    write!(out, " none")
}

// The places, and behind them those of records, which hold none.
fn with_more(curves: [Curve; PLACES]) -> [Curve; CURVES] {
    let none = free_curve();
    let mut all = [none; CURVES];
    all[..PLACES].copy_from_slice(&curves);
    all
}

// Moves, judges and notes every place, and prints what all say together and what the record's place says.
fn judge_places(
    out: &mut impl Write,
    r: &[u8],
    curves: [Curve; PLACES],
) -> io::Result<[Curve; PLACES]> {
    let v = speed_of(r);
    let moved = places::move_all(curves, moved_of(r));
    let judged = places::judge_all(with_more(moved), braking_of(r), v);
    let noted = places::note_all(moved, judged);
    put_all(out, v, judged)?;
    put_place(out, place_of(r), noted, judged)?;
    writeln!(out)?;
    Ok(noted)
}

// The places after a record.
fn after(out: &mut impl Write, r: &[u8], curves: [Curve; PLACES]) -> io::Result<[Curve; PLACES]> {
    match wire::byte_at(r, 0) {
        1 => put_in_place(out, r, true, curves),
        2 => judge_places(out, r, curves),
        3 => put_in_place(out, r, false, curves),
        _ => {
            judge_one(out, r)?;
            Ok(curves)
        }
    }
}

// Reads one record, prints its line and tells the places that it left, or none where the input has ended.
fn turn(
    input: &mut impl Read,
    out: &mut impl Write,
    curves: [Curve; PLACES],
) -> io::Result<Option<[Curve; PLACES]>> {
    let Some(record) = console::read_record(input, [0; 25])? else {
        return Ok(None);
    };
    let next = after(out, &record, curves)?;
    Ok(Some(next))
}

fn no_curves() -> [Curve; PLACES] {
    let c = free_curve();
    [c; PLACES]
}

// A proved loop ends, and nothing says that the input does: so the turns are counted.
fn main(rt: HostRuntime) -> io::Result<()> {
    let mut input = rt.stdin();
    let mut out = rt.stdout();
    let mut curves = no_curves();
    for _ in 0..u32::MAX {
        let Some(next) = turn(&mut input, &mut out, curves)? else {
            break;
        };
        curves = next;
    }
    Ok(())
}
