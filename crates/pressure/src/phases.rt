// The phases of the feedback.
ghost use Rattle.std.specs.Prelude.{◌≡◌};
ghost use Rattle.pressure.specs.Phases.{is_normal, waited_of, is_far, settled_of, set_of, reference_of, next_of};

use crate::reference::changed;
use crate::{Phase, Pressures};

// Whether a pressure is one that a waiting feedback saves.
fn is_normal(pressure: f32) -> bool
    ensures { result ≡ is_normal pressure }
{
    (pressure >= 400.0) & (pressure <= 550.0)
}

// A waiting feedback after a report.
fn waited(pressure: f32) -> Phase
    ensures { result ≡ waited_of pressure }
{
    if is_normal(pressure) {
        Phase::Settling {
            saved: pressure,
            reports: 0,
        }
    } else {
        Phase::Waiting
    }
}

// Whether a pressure is more than 20 kPa from the saved one.
fn is_far(saved: f32, pressure: f32) -> bool
    ensures { result ≡ is_far saved pressure }
{
    (pressure - saved > 20.0) | (saved - pressure > 20.0)
}

// A settling feedback after one more report within 20 kPa.
fn settled(saved: f32, reports: u8) -> Phase
    ensures { result ≡ settled_of saved reports }
{
    if reports < 29 {
        Phase::Settling {
            saved,
            reports: reports + 1,
        }
    } else {
        Phase::Set {
            reference: saved,
            reports: 0,
        }
    }
}

// A set feedback after a report: its reference changes at every tenth.
fn set(reference: f32, reports: u8, pressure: f32) -> Phase
    ensures { result ≡ set_of reference reports pressure }
{
    if reports < 9 {
        return Phase::Set {
            reference,
            reports: reports + 1,
        };
    }
    let Pressures { reference, .. } = changed(Pressures {
        pressure,
        reference,
    });
    Phase::Set {
        reference,
        reports: 0,
    }
}

// P_REF, and 0 while there is none.
pub fn reference_of(phase: Phase) -> f32
    ensures { result ≡ reference_of phase }
{
    match phase {
        Phase::Waiting | Phase::Settling { .. } => 0.0,
        Phase::Set { reference, .. } => reference,
    }
}

// The phase after a report with this pressure.
pub fn next(phase: Phase, pressure: f32) -> Phase
    ensures { result ≡ next_of phase pressure }
{
    match phase {
        Phase::Waiting => waited(pressure),
        Phase::Settling { saved, reports } => {
            if is_far(saved, pressure) {
                waited(pressure)
            } else {
                settled(saved, reports)
            }
        }
        Phase::Set { reference, reports } => set(reference, reports, pressure),
    }
}
