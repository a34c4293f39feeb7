// Reads raw command bytes from a stream, hands them on, and writes what comes of them to another, as 01 says, and 02 of the trip sheet.
//
// What is handed on, and which bytes are written for it, is proved in `portions`, `output` and `printing`. Here nothing is decided: a turn
// is a read, the program's turn, a write.
#![tactic(auto)]

mod writers;

ghost use Rattle.std.specs.Prelude.{◌≡◌, ◌-◌, ◌^◌, ◌<◌, ◌≤◌, eqb, length, take, IfOk, IfSome, OnOk, OnErr};
ghost use Rattle.std.proofs.Common.{rules};
ghost use Rattle.std.specs.Io.KnownBytes.{Appends, Consumes, IsAtEnd, Keeps};
ghost use Rattle.std.proofs.Math.Seq.{slice};
ghost use Rattle.console.specs.Bytes.{AppendsFront};
ghost use Rattle.wire.specs.Bytes.{placed};
ghost use Rattle.portions.specs.Portions.{given_of, portions_of};
ghost use Rattle.portions.specs.Reads.{Writer, text_by, input_room};
ghost use Rattle.portions.specs.Told.{handed_to};
ghost use Rattle.output.specs.Streams.{lines, stream_of};

use output::{Lines, OUTPUT};
use portions::{Handed, INPUT};
use rules::Stm;
use std::io;
use std::io::{Read, Write};
pub use writers::run_from;

// Reads into a buffer after the bytes that are left, and tells where the bytes end then. An input that has ended brings none. A read that
// fails leaves them too.
fn read_after<R: Read>(stdin: &mut R, buffer: &mut [u8], left: usize) -> io::Result<usize>
    ensures buffer_unchanged { take left buffer.new ≡ take left buffer.old }
    ensures lower_bound { IfOk result (λ to. left ≤ to) }
    ensures upper_bound { IfOk result (λ to. left ≤ length buffer.old → to ≤ length buffer.old) }
    ensures bytes { IfOk result (λ to. Consumes (R.remaining stdin.old) (R.remaining stdin.new) (slice left to buffer.new)) }
    ensures end { IfOk result (λ to. to ≡ left → left < length buffer.old → IsAtEnd (R.remaining stdin.new)) }
    ensures err { OnErr result (Keeps (R.remaining stdin.old) (R.remaining stdin.new)) }
{
    if left <= buffer.len() {
        let free = &mut buffer[left..];
        let got = stdin.read(free)?;
        return Ok(left + got);
    }
    Ok(left)
}

// Reads after the bytes that are left, and tells where the bytes end then.
pub fn read<R: Read>(stdin: &mut R, input: &mut [u8; INPUT], left: usize) -> io::Result<usize>
    ensures input_unchanged { take left input.new ≡ take left input.old }
    ensures lower_bound { IfOk result (λ to. left ≤ to) }
    ensures upper_bound { IfOk result (λ to. left ≤ input_room → to ≤ input_room) }
    ensures bytes { IfOk result (λ to. Consumes (R.remaining stdin.old) (R.remaining stdin.new) (slice left to input.new)) }
    ensures end { IfOk result (λ to. to ≡ left → left < input_room → IsAtEnd (R.remaining stdin.new)) }
    ensures err { OnErr result (Keeps (R.remaining stdin.old) (R.remaining stdin.new)) }
{
    read_after(stdin, input, left)
}

// Writes the first bytes of the room.
fn write<W: Write>(stdout: &mut W, room: &[u8], written: usize) -> io::Result<()>
    ensures ok { OnOk result (Appends (W.contents stdout.old) (W.contents stdout.new) (take written room.now)) }
    ensures err { OnErr result (AppendsFront (W.contents stdout.old) (W.contents stdout.new) (take written room.now)) }
{
    console::write_all(stdout, portions::part(room, 0, written))
}

// Brings the bytes that are not used yet to the front, and tells how many they are.
pub fn keep(input: &mut [u8; INPUT], used: usize, to: usize) -> usize
    ensures value { result ≡ length (slice used to input.old) }
    ensures input_after { input.new ≡ placed (slice used to input.old) input.old }
{
    portions::to_front(input, used, to)
}

// A program's turn, with room for the texts of all that can be given of the input: none waits until more bytes come.
pub trait Turn<const ROOM: usize> {
    type State: Copy;

    ghost writer: { Writer Self.State };

    // `left` bytes were left at the front of the input, and with those that were read after them there are `to`. Where none
    // were read, the input has ended.
    fn turn(
        state: Self::State,
        input: &[u8; INPUT],
        left: usize,
        to: usize,
        room: &mut [u8; ROOM],
    ) -> Handed<Self::State>
        ensures outcome { result ≡ handed_to writer state (given_of (eqb to left) (take to input.now)) }
        ensures written { room.new ≡ placed (text_by writer state (given_of (eqb to left) (take to input.now)).portions) room.old };

    // A run has memory for the room, as for any array.
    ghost fits: { ROOM < 2 ^ 63 };
}

impl Turn<OUTPUT> for Lines {
    type State = Stm;

    ghost writer = { lines };

    fn turn(
        stm: Stm,
        input: &[u8; INPUT],
        left: usize,
        to: usize,
        room: &mut [u8; OUTPUT],
    ) -> Handed<Stm> {
        output::turn(stm, input, left, to, room)
    }

    ghost fits = { Prim.search rules };
}

// Runs a program's turns from a state until the stream ends, or a read or a write fails. Memory is fixed, whatever the input.
pub fn run_turns<T: Turn<ROOM>, const ROOM: usize, R: Read, W: Write>(
    state: T::State,
    stdin: &mut R,
    stdout: &mut W,
) -> io::Result<()>
    // Where all went well, the text of the whole input is written, however it came in reads: of an input of up to
    // 2^64 - 2 bytes, which no run reads.
    ensures whole { OnOk result (IfSome (R.remaining stdin.old)
        (λ input. length input < 2 ^ 64 - 1 → Appends (W.contents stdout.old) (W.contents stdout.new) (text_by T.writer state (portions_of input)))) }

    // And whatever failed, what is written is a beginning of it.
    ensures beginning { IfSome (R.remaining stdin.old)
        (λ input. AppendsFront (W.contents stdout.old) (W.contents stdout.new) (text_by T.writer state (portions_of input))) }
{
    let mut input = [0u8; INPUT];
    let mut room = [0u8; ROOM];
    let mut state = state;
    let mut left = 0;
    // A proved loop ends, and nothing says that the input does: so the turns are counted.
    for _ in 0..u64::MAX {
        let to = read(stdin, &mut input, left)?;
        let handed = T::turn(state, &input, left, to, &mut room);
        write(stdout, &room, handed.written)?;
        if handed.ended {
            return Ok(());
        }
        state = handed.state;
        left = keep(&mut input, handed.used, to);
    }
    Ok(())
}

// The stream program: runs the unit until the stream ends, or a read or a write fails. Memory is fixed, whatever the input.
pub fn run<R: Read, W: Write>(stdin: &mut R, stdout: &mut W) -> io::Result<()>
    // Where all went well, the output of the whole input is written, however it came in reads: of an input of up to
    // 2^64 - 2 bytes, which no run reads.
    ensures whole { OnOk result (IfSome (R.remaining stdin.old)
        (λ input. length input < 2 ^ 64 - 1 → Appends (W.contents stdout.old) (W.contents stdout.new) (stream_of input))) }

    // And whatever failed, what is written is a beginning of it.
    ensures beginning { IfSome (R.remaining stdin.old)
        (λ input. AppendsFront (W.contents stdout.old) (W.contents stdout.new) (stream_of input)) }
{
    run_turns::<Lines, OUTPUT, R, W>(unit::fresh(), stdin, stdout)
}
