// Runs recorded readings through the brake feedback and prints a line for each report.
//
// A record has 8 bytes: what the report finds (0 a fresh feedback, 1 the one that the last record
// left, 2 a reference whose tenth report this is), the feed (0 pipe, 1 cylinder), P_FULL in kPa,
// P_EXT in half kPa, signed, and the reference of a 2 in half kPa; numbers high byte first.
#![tactic(auto)]

mod text;

use pressure::{Feed, Measured, Phase, Pressures};
use std::io;
use std::io::{Read, Write};
use text::put_kpa;

// A feedback with a reference whose tenth report comes next, the pressure being at the reference.
fn tenth(reference: f32) -> Measured {
    Measured {
        phase: Phase::Set {
            reference,
            reports: 9,
        },
        pressures: Pressures {
            pressure: reference,
            reference,
        },
        fault: false,
    }
}

// The feedback that a record's report finds.
fn found(kind: u8, feedback: Measured, reference: u16) -> Measured {
    match kind {
        0 => pressure::fresh(),
        2 => tenth(reference as f32 / 2.0),
        _ => feedback,
    }
}

fn feed_of(kind: u8) -> Feed {
    if kind == 0 {
        Feed::Pipe
    } else {
        Feed::Cylinder
    }
}

// Standard output has no buffer, and each piece of a `write!` is a write of its own: so the names bring their blanks.
fn feed_name(feed: Feed) -> &'static str {
    match feed {
        Feed::Pipe => "pipe ",
        Feed::Cylinder => "cylinder ",
    }
}

fn phase_name(phase: Phase) -> &'static str {
    match phase {
        Phase::Waiting => " waiting",
        Phase::Settling { .. } => " settling",
        Phase::Set { .. } => " set",
    }
}

fn put_measured(out: &mut impl Write, m: Measured) -> io::Result<()> {
    let p = m.pressures;
    write!(out, ": P_INT ")?;
    put_kpa(out, p.pressure)?;
    write!(out, " P_REF ")?;
    put_kpa(out, p.reference)?;
    write!(out, " drop ")?;
    put_kpa(out, pressure::drop_of(p))?;
    write!(out, "{}", phase_name(m.phase))?;
    if m.fault {
        write!(out, " TRYCKGIVARFEL")?;
    }
    writeln!(out)
}

// Reads one record, prints its line and tells the feedback that it left, or none where the input has ended.
fn turn(
    input: &mut impl Read,
    out: &mut impl Write,
    feedback: Measured,
) -> io::Result<Option<Measured>> {
    let Some(record) = console::read_record(input, [0; 8])? else {
        return Ok(None);
    };
    let feed = feed_of(wire::byte_at(&record, 1));
    let full = wire::be16(&record, 2);
    let external = wire::signed16(wire::be16(&record, 4));
    let before = found(wire::byte_at(&record, 0), feedback, wire::be16(&record, 6));
    let after = pressure::report(before.phase, before.pressures, feed, full, external);
    write!(out, "{}{full} ", feed_name(feed))?;
    put_kpa(out, external as f32 / 2.0)?;
    put_measured(out, after)?;
    Ok(Some(after))
}

// A proved loop ends, and nothing says that the input does: so the turns are counted.
fn main(rt: HostRuntime) -> io::Result<()> {
    let mut input = rt.stdin();
    let mut out = rt.stdout();
    let mut feedback = pressure::fresh();
    for _ in 0..u32::MAX {
        let Some(next) = turn(&mut input, &mut out, feedback)? else {
            break;
        };
        feedback = next;
    }
    Ok(())
}
