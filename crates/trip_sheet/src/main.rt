// The trip sheet of 02: raw command bytes on standard input, pages of lines on standard output.
//
// What is printed is proved in `printing`, and the run in `stdio`.
#![tactic(auto)]

ghost use Rattle.std.specs.Prelude.{◌-◌, ◌^◌, ◌<◌, length, IfSome, OnOk};
ghost use Rattle.std.proofs.Common.{rules};
ghost use Rattle.std.specs.Io.KnownBytes.{Appends};
ghost use Rattle.console.specs.Bytes.{AppendsFront};
ghost use Rattle.printing.specs.Sheets.{printer, trip_sheet};

use portions::{Handed, INPUT};
use printing::{OUTPUT, Trip};
use std::io;
use std::io::{Read, Write};
use stdio::Turn;

// The program that prints the sheet.
struct Sheets;

impl Turn<OUTPUT> for Sheets {
    type State = Trip;

    ghost writer = { printer };

    fn turn(
        trip: Trip,
        input: &[u8; INPUT],
        left: usize,
        to: usize,
        room: &mut [u8; OUTPUT],
    ) -> Handed<Trip> {
        printing::turn(trip, input, left, to, room)
    }

    ghost fits = { Prim.search rules };
}

// Runs until the stream ends, or a read or a write fails. Memory is fixed, whatever the input.
fn run<R: Read, W: Write>(stdin: &mut R, stdout: &mut W) -> io::Result<()>
    // Where all went well, the sheet of the whole input is written, however it came in reads: of an input of up to
    // 2^64 - 2 bytes, which no run reads.
    ensures whole { OnOk result (IfSome (R.remaining stdin.old)
        (λ input. length input < 2 ^ 64 - 1 → Appends (W.contents stdout.old) (W.contents stdout.new) (trip_sheet input))) }

    // And whatever failed, what is written is a beginning of it.
    ensures beginning { IfSome (R.remaining stdin.old)
        (λ input. AppendsFront (W.contents stdout.old) (W.contents stdout.new) (trip_sheet input)) }
{
    stdio::run_turns::<Sheets, OUTPUT, R, W>(printing::fresh(), stdin, stdout)
}

fn main(rt: HostRuntime) -> io::Result<()> {
    run(&mut rt.stdin(), &mut rt.stdout())
}
