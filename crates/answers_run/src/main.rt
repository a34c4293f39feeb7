// Hands recorded commands to the unit with areas of any length, and prints the answer, what the area then holds and
// the operand part. A record is the area's length, the command's length, and 32 bytes of which the command is the
// first. Every area is filled with AA before its call.
#![tactic(auto)]

use rules::{Outcome, Stm};
use std::io;
use std::io::Write;

const RECORD: usize = 34;

const AREA: usize = 32;

// Standard output has no buffer: the two digits of a byte go out in one write.
fn put_bytes(out: &mut impl Write, bytes: &[u8]) -> io::Result<()> {
    for byte in bytes {
        out.write_all(&[wire::digit(*byte / 16), wire::digit(*byte)])?;
    }
    Ok(())
}

// The command of a record.
fn command_of(record: &[u8; RECORD]) -> &[u8] {
    let n = wire::byte_at(record, 1) as usize;
    portions::part(record, 2, 2 + n)
}

// Calls the unit with the first n bytes of a buffer as the area.
fn hand(stm: Stm, command: &[u8], buffer: &mut [u8], n: usize) -> Outcome {
    if n <= buffer.len() {
        return unit::call(stm, command, &mut buffer[..n]);
    }
    unit::call(stm, command, buffer)
}

fn hand_record(stm: Stm, record: &[u8; RECORD], area: &mut [u8; AREA]) -> Outcome {
    let n = wire::byte_at(record, 0) as usize;
    hand(stm, command_of(record), area, n)
}

fn put_outcome(
    out: &mut impl Write,
    record: &[u8; RECORD],
    outcome: Outcome,
    area: &[u8; AREA],
) -> io::Result<()> {
    let n = wire::byte_at(record, 0) as usize;
    let answer = outcome.answer;
    write!(out, "answer {} area ", unit::answer_number(answer))?;
    put_bytes(out, portions::part(area, 0, n))?;
    write!(out, " operands ")?;
    put_bytes(out, unit::operands(command_of(record), n))?;
    writeln!(out)
}

// A proved loop ends, and nothing says that the input does: so the turns are counted.
fn main(rt: HostRuntime) -> io::Result<()> {
    let mut input = rt.stdin();
    let mut out = rt.stdout();
    let mut stm = unit::fresh();
    for _ in 0..u32::MAX {
        let Some(record) = console::read_record(&mut input, [0; RECORD])? else {
            break;
        };
        let mut area = [0xAAu8; AREA];
        let outcome = hand_record(stm, &record, &mut area);
        put_outcome(&mut out, &record, outcome, &area)?;
        stm = outcome.stm;
    }
    Ok(())
}
