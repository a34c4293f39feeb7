// The answer to every command: the refusals of 01 and of 02, F-3, F-6 and F-7, in their order, and the repeat.
//
// No public function has a `requires`: each is defined at every value of its parameters.
#![tactic(auto)]

ghost use Rattle.std.specs.Prelude.{◌≡◌, not, ◌&&◌, ◌||◌, ◌+◌, eqb, map};
ghost use Rattle.wire.specs.Codes.{longest};
ghost use Rattle.wire.specs.Bytes.{same_bytes};
ghost use Rattle.areas.specs.Rows.{is_taken};
ghost use Rattle.rules.specs.declared.Answer.{Answer};
ghost use Rattle.rules.specs.declared.Code.{Code};
ghost use Rattle.rules.specs.Numbers.{code_of, is_code};
ghost use Rattle.rules.specs.Places.{holds_curve, all_curves_held, holds_section, stands_section, all_sections_held, holds_record, all_records_held, keeps_record};
ghost use Rattle.rules.specs.Operands.{code_byte, number_of, event_in};
ghost use Rattle.rules.specs.Commands.{padded};
ghost use Rattle.rules.specs.Refusals.{is_path, is_allowed, orders_da, rule, first_of, rules_for, answer_of};

use areas::is_taken;
use boards::{all_records_held, holds_record, keeps_record};
use brake_test::is_running;
use encoding::fields::{event_in, in_range};
use encoding::numbers::{code_of, state_of};
use rules::{Answer, Code, State, Stm, Track};
use track::curves::{all_curves_held, holds_curve};
use track::sections::{all_sections_held, holds_section, stands_section};
use wire::{LONGEST, be32, byte_at};

// The bytes of a command, with 0 after its end.
pub fn padded(command: &[u8]) -> [u8; LONGEST]
    ensures { result ≡ padded longest command.now }
{
    let mut bytes = [0; LONGEST];
    let length = command.len().min(LONGEST);
    bytes[..length].copy_from_slice(&command[..length]);
    bytes
}

// Whether the bytes are those of the last accepted command.
fn is_last(last: [u8; LONGEST], command: &[u8]) -> bool
    ensures { result ≡ same_bytes last (padded longest command.now) }
{
    wire::same(&last, &padded(command))
}

// Whether the number is one more than the last accepted one.
fn is_next(last: [u8; LONGEST], number: u32) -> bool
    ensures { result ≡ eqb number (number_of last + 1) }
{
    number as u64 == be32(&last, 1) as u64 + 1
}

fn is_path(from: State, to: State) -> bool
    ensures { result ≡ is_path from to }
{
    match from {
        State::DE => matches!(to, State::CS | State::DA | State::FA),
        State::CS => matches!(to, State::HS | State::FA),
        State::HS => matches!(to, State::CS | State::DA | State::FA),
        State::DA => matches!(to, State::CS | State::FA),
        State::FA => matches!(to, State::FA),
    }
}

// Whether the state allows a command.
fn is_allowed(state: State, code: Code, s: &[u8]) -> bool
    ensures { result ≡ is_allowed state code s.now }
{
    match code {
        Code::Start | Code::Odometer | Code::TestBrakes => true,
        Code::ChangeState => is_path(state, state_of(byte_at(s, 0))),
        Code::StopPassed | Code::BaliseError => state == State::DA,
        Code::NewCurve
        | Code::EndCurve
        | Code::NewSection
        | Code::EndSection
        | Code::Proceed
        | Code::AreaEvent
        | Code::NewRecord
        | Code::SignalPassed
        | Code::EndRecord => matches!(state, State::HS | State::DA),
    }
}

fn orders_da(code: Code, s: &[u8]) -> bool
    ensures { result ≡ orders_da code s.now }
{
    code == Code::ChangeState && state_of(byte_at(s, 0)) == State::DA
}

// Whether the id to be ended isn't held, or its section is already ending.
fn ends_nothing(track: Track, code: Code, id: u8) -> bool
    ensures { result ≡ (is_code Code.EndCurve code && not (holds_curve id track.curves) || is_code Code.EndSection code && not (stands_section id track.sections) || is_code Code.EndRecord code && not (holds_record id track.records)) }
{
    match code {
        Code::EndCurve => !holds_curve(id, track.curves),
        Code::EndSection => !stands_section(id, track.sections),
        Code::EndRecord => !holds_record(id, track.records),
        _ => false,
    }
}

// Whether a new id finds all places held.
fn finds_no_place(track: Track, code: Code, id: u8) -> bool
    ensures { result ≡ (is_code Code.NewCurve code && not (holds_curve id track.curves) && all_curves_held track.curves || is_code Code.NewSection code && not (holds_section id track.sections) && all_sections_held track.sections) }
{
    match code {
        Code::NewCurve => !holds_curve(id, track.curves) && all_curves_held(track.curves),
        Code::NewSection => !holds_section(id, track.sections) && all_sections_held(track.sections),
        _ => false,
    }
}

// Whether an area event isn't taken in the area.
fn is_untaken(track: Track, code: Code, s: &[u8]) -> bool
    ensures { result ≡ (is_code Code.AreaEvent code && not (is_taken track.stay.area (event_in s.now))) }
{
    code == Code::AreaEvent && !is_taken(track.stay.area, event_in(s))
}

// Whether a new record's id finds all eight places held.
fn finds_no_record_place(track: Track, code: Code, id: u8) -> bool
    ensures { result ≡ (is_code Code.NewRecord code && not (holds_record id track.records) && all_records_held track.records) }
{
    code == Code::NewRecord && !holds_record(id, track.records) && all_records_held(track.records)
}

// Whether a repeater finds a record that it can't take the place of.
fn repeats_nothing(track: Track, code: Code, id: u8) -> bool
    ensures { result ≡ (is_code Code.NewRecord code && keeps_record id track.records) }
{
    code == Code::NewRecord && keeps_record(id, track.records)
}

// The first answer that applies; where none does, the command is accepted.
fn first_of(rules: &[(bool, Answer)]) -> Answer
    ensures { result ≡ first_of (map (λ r. rule r.0 r.1) rules.now) }
{
    rules
        .iter()
        .find(|(applies, _)| *applies)
        .map_or(Answer::Accepted, |(_, answer)| *answer)
}

// The answer to a command that passes 1 to 4, with its operands: the first of 5 to 8, of the repeat and of 9 to 18 that applies.
fn judge(stm: Stm, command: &[u8], s: &[u8]) -> Answer
    ensures { result ≡ first_of (rules_for stm command.now (code_of (code_byte command.now)) s.now) }
{
    let started = stm.control.started;
    let state = stm.control.state;
    let last = stm.last.bytes;
    let code = code_of(byte_at(command, 0));
    let id = byte_at(s, 0);
    let number = be32(command, 1);
    let start = code == Code::Start;
    let tests = code == Code::TestBrakes;
    let again = started & is_last(last, command);
    first_of(&[
        (!started & !start, Answer::NotStarted),
        (number == 0, Answer::ZeroNumber),
        (
            !start & !again & !is_next(last, number),
            Answer::WrongNumber,
        ),
        ((state == State::FA) & !start & !again, Answer::Failed),
        (again, Answer::Again),
        (!in_range(code, s), Answer::OutOfRange),
        (!is_allowed(state, code, s), Answer::NotAllowed),
        (
            orders_da(code, s) & !pressure::has_reference(stm.feedback.phase),
            Answer::NoReference,
        ),
        (ends_nothing(stm.track, code, id), Answer::NotHeld),
        (finds_no_place(stm.track, code, id), Answer::AllHeld),
        (tests & (state != State::DE), Answer::OutsideDE),
        (tests & is_running(stm.test.stage), Answer::TestRunning),
        (is_untaken(stm.track, code, s), Answer::NotTaken),
        (
            finds_no_record_place(stm.track, code, id),
            Answer::NoRecordPlace,
        ),
        (repeats_nothing(stm.track, code, id), Answer::NotSuperseded),
    ])
}

// The answer to every command, with an area of so many bytes: refusals 1 to 4 by its form, else a whole command's own.
pub fn answer_of(stm: Stm, command: &[u8], area: usize) -> Answer
    ensures { result ≡ answer_of stm command.now area }
{
    match wire::form_of(command, area) {
        Ok(()) => judge(stm, command, wire::operands(command, area)),
        Err(error) => Answer::from(error),
    }
}
