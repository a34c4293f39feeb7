// The brake feedback (01, "Brake feedback"; 000, 5.5), for this unit and for other makers' units.
//
// A report's P_EXT gives the pressure P_INT, moves the feedback's phase on, and with it the
// reference P_REF. Every figure is in kPa, in f32. The caller keeps what a report returns, and hands
// its phase and its record of pressures to the next one.
#![tactic(auto)]

mod convert;
mod phases;
mod reference;

ghost use Rattle.std.specs.Prelude.{◌≡◌};
ghost use Rattle.pressure.specs.Phases.{is_set};
ghost use Rattle.pressure.specs.Report.{fresh_feedback, reported};

pub use reference::drop_of;

// Where the brake pressure is taken: in the brake pipe, or in a cylinder.
#[derive(Clone, Copy, PartialEq, Eq)]
pub enum Feed {
    Pipe,
    Cylinder,
}

// Pressure (P_INT) and reference (P_REF, 0 while there is none), in kPa.
#[derive(Clone, Copy)]
pub struct Pressures {
    pub pressure: f32,
    pub reference: f32,
}

// The feedback's phase. Settling has the saved pressure P0, and how many further reports were within
// 20 kPa of it. Set has P_REF, and how many reports came since it was set or last due for a change.
#[derive(Clone, Copy)]
pub enum Phase {
    Waiting,
    Settling { saved: f32, reports: u8 },
    Set { reference: f32, reports: u8 },
}

// The feedback after a report; `fault` is TRYCKGIVARFEL.
#[derive(Clone, Copy)]
pub struct Measured {
    pub phase: Phase,
    pub pressures: Pressures,
    pub fault: bool,
}

// The feedback before any report.
pub fn fresh() -> Measured
    ensures { result ≡ fresh_feedback }
{
    Measured {
        phase: Phase::Waiting,
        pressures: Pressures {
            pressure: 0.0,
            reference: 0.0,
        },
        fault: false,
    }
}

// Whether there is a reference pressure.
pub fn has_reference(phase: Phase) -> bool
    ensures { result ≡ is_set phase }
{
    matches!(phase, Phase::Set { .. })
}

// One report, with the phase and the record that the last one left, P_FULL in kPa (a cylinder's
// pressure at full service braking; on a pipe it is not used) and P_EXT in half kPa.
pub fn report(phase: Phase, pressures: Pressures, feed: Feed, full: u16, external: i16) -> Measured
    ensures { result ≡ reported phase pressures feed full external }
{
    let reading = convert::halved(external);
    let pressure = convert::pressure_of(feed, full, reading, pressures.reference);
    let next = phases::next(phase, pressure);
    let reference = phases::reference_of(next);
    Measured {
        phase: next,
        pressures: Pressures {
            pressure,
            reference,
        },
        fault: convert::sensor_fault(reading),
    }
}
