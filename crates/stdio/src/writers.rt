// A run of any writer of texts, in a room whose size the caller chooses.
ghost use Rattle.std.specs.Prelude.{◌≡◌, ◌+◌, ◌-◌, ◌*◌, ◌/◌, ◌^◌, ◌<◌, ◌≤◌, ◌⊎◌, ◌&&◌, leb, ltb, length, IfSome, IsErr, OnOk};
ghost use Rattle.std.specs.Io.KnownBytes.{Appends, Keeps};
ghost use Rattle.console.specs.Bytes.{AppendsFront};
ghost use Rattle.wire.specs.Codes.{shortest};
ghost use Rattle.portions.specs.Portions.{portions_of};
ghost use Rattle.portions.specs.Reads.{text_by, input_room};

use crate::{keep, read, write};
use portions::{INPUT, Tell};
use std::io;
use std::io::{ErrorKind, Read, Write};
use wire::SHORTEST;

// Whether so many bytes have room for the texts of all that can be given of the input: then no text waits until more bytes come. No array
// has 2^63 bytes.
fn has_room(width: usize, room: usize) -> bool
    ensures { result ≡ (leb ((input_room / shortest + 2) * width) room && ltb room (2 ^ 63)) }
{
    match width.checked_mul(INPUT / SHORTEST + 2) {
        Some(most) => (most <= room) & (room <= usize::MAX / 2),
        None => false,
    }
}

// Runs a writer of texts from a state until the stream ends, or a read or a write fails. Memory is fixed, whatever the input.
pub fn run_from<T: Tell, const ROOM: usize, R: Read, W: Write>(
    state: T::State,
    stdin: &mut R,
    stdout: &mut W,
) -> io::Result<()>
    // A room that is too small for the texts of all that can be given of the input, or larger than an array can be, is an error, and nothing
    // is read or written.
    ensures refused { (ROOM < (input_room / shortest + 2) * T.WIDTH) ⊎ (2 ^ 63 ≤ ROOM)
        → IsErr result × (Keeps (R.remaining stdin.old) (R.remaining stdin.new) × Keeps (W.contents stdout.old) (W.contents stdout.new)) }

    // Where all went well, the text of the whole input is written, however it came in reads: of an input of up to
    // 2^64 - 2 bytes, which no run reads.
    ensures whole { OnOk result (IfSome (R.remaining stdin.old)
        (λ input. length input < 2 ^ 64 - 1 → Appends (W.contents stdout.old) (W.contents stdout.new) (text_by T.writer state (portions_of input)))) }

    // And whatever failed, what is written is a beginning of it.
    ensures beginning { IfSome (R.remaining stdin.old)
        (λ input. AppendsFront (W.contents stdout.old) (W.contents stdout.new) (text_by T.writer state (portions_of input))) }
{
    if !has_room(T::WIDTH, ROOM) {
        return Err(io::Error::from(ErrorKind::InvalidInput));
    }
    let mut input = [0u8; INPUT];
    let mut room = [0u8; ROOM];
    let mut state = state;
    let mut left = 0;
    // A proved loop ends, and nothing says that the input does: so the turns are counted.
    for _ in 0..u64::MAX {
        let to = read(stdin, &mut input, left)?;
        let handed = portions::hand_on::<T>(
            state,
            portions::part(&input, 0, to),
            to == left,
            &mut room,
        );
        write(stdout, &room, handed.written)?;
        if handed.ended {
            return Ok(());
        }
        state = handed.state;
        left = keep(&mut input, handed.used, to);
    }
    Ok(())
}

#[cfg(test)]
mod tests {
    use super::*;
    use output::{Lines, OUTPUT};
    use std::test::Fail;

    // 01's example: input, and output with the four bytes of F-1 and the area of F-6 (02) at each report's end.
    const EXAMPLE: &[u8] =
        b"\x01\0\0\0\x01\0\0\xA0\x01\x90\x02\xBC\x01\xF4\x1E\x14\x14\x1E\x0A\x0F\x32\x01\x7C\x0D\x02\0\0\0\x02\x01\x02\0\0\0\x02\x01\x02\0\0\0\x03\x03\x7F";

    const LINES: &[u8] =
        b"0 0000000000000000FF0000000000FFFFFFFF08\n0 0100000000000000FF0000000000FFFFFFFF08\n100 0100000000000000FF0000000000FFFFFFFF08\n10\n3\n";

    #[test]
    fn runs_a_writer(rt: HostRuntime) -> Result<(), Fail> {
        let mut input = EXAMPLE;
        let mut room = [0u8; 256];
        let mut output: &mut [u8] = &mut room;
        run_from::<Lines, OUTPUT, _, _>(unit::fresh(), &mut input, &mut output)?;
        let left = output.len();
        assert_eq!(rt; &room[..room.len().saturating_sub(left)], LINES);
        Ok(())
    }

    #[test]
    fn refuses_a_small_room(rt: HostRuntime) {
        let mut input = EXAMPLE;
        let mut room = [0u8; 256];
        let mut output: &mut [u8] = &mut room;
        let run = run_from::<Lines, 256, _, _>(unit::fresh(), &mut input, &mut output);
        assert!(rt; run.is_err(), "256 bytes are no room");
        assert_eq!(rt; input.len(), EXAMPLE.len(), "nothing is read");
        assert_eq!(rt; output.len(), 256, "nothing is written");
    }
}
