// A host: it keeps a unit, hands it four commands, and prints what comes of each.
#![tactic(auto)]

use rules::Stm;
use std::io;

fn print(rt: &impl Print, text: &str, number: u8) -> io::Result<()> {
    print!(rt; "{text}{number}")
}

// Hands a command to the unit, prints what comes of it, and returns the unit for the next.
fn send(rt: &impl Print, stm: Stm, command: &[u8]) -> io::Result<Stm> {
    let mut report = [0u8; wire::REPORT_LENGTH];
    let outcome = unit::call(stm, command, &mut report);
    let answer = outcome.answer;
    print(rt, "answer ", unit::answer_number(answer))?;
    if unit::is_answered(answer) {
        print(rt, ", state ", report[0])?;
        print(rt, ", brake order ", report[1])?;
    }
    println!(rt)?;
    Ok(outcome.stm)
}

fn main(rt: HostRuntime) -> io::Result<()> {
    let mut stm = unit::fresh();
    // Number 1: a start, with the train of 01's example.
    stm = send(
        &rt,
        stm,
        b"\x01\0\0\0\x01\0\0\xA0\x01\x90\x02\xBC\x01\xF4\x1E\x14\x14\x1E\x0A\x0F\x32\x01\x7C\x0D",
    )?;
    // Number 2: to CS, and the same bytes once more.
    stm = send(&rt, stm, b"\x02\0\0\0\x02\x01")?;
    stm = send(&rt, stm, b"\x02\0\0\0\x02\x01")?;
    // Number 3: to DA, which CS does not allow.
    send(&rt, stm, b"\x02\0\0\0\x03\x03")?;
    Ok(())
}
