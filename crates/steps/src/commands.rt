// What an accepted command does.
ghost use Rattle.std.specs.Prelude.{◌≡◌};
ghost use Rattle.rules.specs.Numbers.{code_of};
ghost use Rattle.rules.specs.Operands.{code_byte};
ghost use Rattle.rules.specs.Releases.{brakes_by};
ghost use Rattle.rules.specs.declared.Code.{Code};
ghost use Rattle.rules.specs.BrakeTest.{left_test};
ghost use Rattle.rules.specs.Odometer.{with_brakes, with_test};
ghost use Rattle.rules.specs.Commands.{entered, stopped, carried_out, remembered};

use crate::odometer::take_reading;
use crate::report::remember;
use crate::state::fresh_with;
use boards::{end_record, give_record, pass_signal};
use brake_test::{begun_test, left_test};
use brakes::release::{brakes_by, fresh_brakes};
use encoding::fields::{
    curve_of, event_in, event_speed, reading_of, record_of, route_in, section_of, signal_in,
    train_of,
};
use encoding::numbers::{code_of, state_of, stop_of};
use rules::{Code, Control, Incident, State, Stm, Track};
use track::curves::{end_curve, give_curve};
use track::sections::{end_section, give_section};
use track::whole::{cleared_track, passed_track};
use wire::byte_at;

// Entering CS drops curves, sections, records, causes, their counters and the 40, and keeps the area.
fn enter(state: State, stm: Stm) -> Stm
    ensures { result ≡ entered state stm }
{
    let control = Control {
        state,
        ..stm.control
    };
    if state == State::CS {
        Stm {
            control,
            track: cleared_track(stm.track),
            brakes: fresh_brakes(),
            ..stm
        }
    } else {
        Stm { control, ..stm }
    }
}

// Command 02: a test that runs ends with DE.
fn change_state(state: State, stm: Stm) -> Stm
    ensures { result ≡ with_test (entered state stm) (left_test stm.test) }
{
    Stm {
        test: left_test(stm.test),
        ..enter(state, stm)
    }
}

// Command 30; an unexpected stop brings the 40.
fn stop(which: u8, stm: Stm) -> Stm
    ensures { result ≡ stopped which stm }
{
    let incident = stop_of(which);
    let unexpected = incident == Some(Incident::UnexpectedStop);
    Stm {
        track: Track {
            forty: unexpected | stm.track.forty,
            ..stm.track
        },
        brakes: brakes_by(incident, stm.kept.speed, stm.brakes),
        ..stm
    }
}

// Command 32.
fn balise_error(stm: Stm) -> Stm
    ensures { result ≡ with_brakes stm (brakes_by Code.BaliseError 0 stm.kept.speed stm.brakes) }
{
    Stm {
        brakes: brakes_by(Some(Incident::BaliseError), stm.kept.speed, stm.brakes),
        ..stm
    }
}

// The unit after an accepted command, with its operands.
pub fn accept(command: &[u8], s: &[u8], stm: Stm) -> Stm
    ensures { result ≡ remembered command.now (carried_out (code_of (code_byte command.now)) s.now stm) }
{
    let mut next = stm;
    match code_of(byte_at(command, 0)) {
        Code::Start => next = fresh_with(true, train_of(s)),
        Code::ChangeState => next = change_state(state_of(byte_at(s, 0)), stm),
        // In DA its report looks at what has been judged already.
        Code::Odometer => return take_reading(command, reading_of(s), stm),
        Code::NewCurve => next.track.curves = give_curve(curve_of(s), stm.track.curves),
        Code::EndCurve => next.track.curves = end_curve(byte_at(s, 0), stm.track.curves),
        Code::NewSection => next.track.sections = give_section(section_of(s), stm.track.sections),
        Code::EndSection => next.track.sections = end_section(byte_at(s, 0), stm.track.sections),
        Code::StopPassed => next = stop(byte_at(s, 0), stm),
        Code::Proceed => next.track.forty = false,
        Code::BaliseError => next = balise_error(stm),
        Code::TestBrakes => next.test = begun_test(stm.test),
        Code::AreaEvent => next.track = passed_track(event_in(s), event_speed(s), stm.track),
        Code::NewRecord => next.track.records = give_record(record_of(s), stm.track.records),
        Code::SignalPassed => {
            next.track.records = pass_signal(signal_in(s), route_in(s), stm.track.records);
        }
        Code::EndRecord => next.track.records = end_record(byte_at(s, 0), stm.track.records),
    }
    remember(command, next)
}
