// 01's numbers: of answers, and the codes, stops and states of bytes.
ghost use Rattle.std.specs.Prelude.{◌≡◌};
ghost use Rattle.rules.specs.Numbers.{answer_number, is_accepted, is_answered, code_of, stop_of, state_of};

use rules::{Answer, Code, Incident, State};

// The paper's number of an answer.
pub fn answer_number(answer: Answer) -> u8
    ensures { result ≡ answer_number answer }
{
    u8::from(answer)
}

pub fn is_accepted(answer: Answer) -> bool
    ensures { result ≡ is_accepted answer }
{
    answer == Answer::Accepted
}

// Accepted or again: the report is written.
pub fn is_answered(answer: Answer) -> bool
    ensures { result ≡ is_answered answer }
{
    matches!(answer, Answer::Accepted | Answer::Again)
}

// The command of a byte that is a code: refusal 3 has gone before, so there is no error to give.
pub fn code_of(byte: u8) -> Code
    ensures { result ≡ code_of byte }
{
    match byte {
        0x01 => Code::Start,
        0x02 => Code::ChangeState,
        0x10 => Code::Odometer,
        0x20 => Code::NewCurve,
        0x21 => Code::EndCurve,
        0x22 => Code::NewSection,
        0x23 => Code::EndSection,
        0x30 => Code::StopPassed,
        0x31 => Code::Proceed,
        0x32 => Code::BaliseError,
        0x40 => Code::TestBrakes,
        0x50 => Code::AreaEvent,
        0x51 => Code::NewRecord,
        0x52 => Code::SignalPassed,
        _ => Code::EndRecord,
    }
}

// The stop of command 30's byte. Refusal 9 has gone before a byte that is none.
pub fn stop_of(byte: u8) -> Option<Incident>
    ensures { result ≡ stop_of byte }
{
    match byte {
        0 => Some(Incident::AimedStop),
        1 => Some(Incident::UnexpectedStop),
        2 => Some(Incident::Landslide),
        _ => None,
    }
}

// The state of a byte from 0 to 4: refusal 9 has gone before.
pub fn state_of(byte: u8) -> State
    ensures { result ≡ state_of byte }
{
    match byte {
        0 => State::DE,
        1 => State::CS,
        2 => State::HS,
        3 => State::DA,
        _ => State::FA,
    }
}
