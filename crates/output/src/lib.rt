// The output of a stream: bytes are handed to the unit portion by portion, and a line is put for each answer.
//
// No public function has a `requires`: each is defined at every state, at every bytes and at every room.
#![tactic(auto)]

ghost use Rattle.std.specs.Prelude.{◌≡◌, eqb, length, take};
ghost use Rattle.std.proofs.Common.{rules};
ghost use Rattle.wire.specs.Bytes.{placed};
ghost use Rattle.portions.specs.Portions.{given_of};
ghost use Rattle.portions.specs.Reads.{text_by};
ghost use Rattle.line.specs.Lines.{line_width};
ghost use Rattle.output.specs.Streams.{lines, handed_on, given_in};
ghost use Rattle.output.specs.Rooms.{lines_in, room_for_a_line};

pub use portions::Handed;
use portions::{INPUT, Tell, Told};
use rules::Stm;
use wire::{REPORT_LENGTH, SHORTEST};

// The bytes of output: lines for as many commands as the input can hold, for a rest after them, and one to find no more.
pub const OUTPUT: usize = (INPUT / SHORTEST + 2) * line::WIDTH;

// The writer of the stream program: a line for each answer.
pub struct Lines;

impl Tell for Lines {
    type State = Stm;

    ghost writer = { lines };

    ghost writer_in = { lines_in };

    ghost WIDTH = { line_width };

    const WIDTH: usize = line::WIDTH;

    // Hands one portion to the unit, and puts its line.
    fn tell(stm: Stm, portion: &[u8], room: &mut [u8]) -> Told<Stm> {
        let mut report = [255u8; REPORT_LENGTH];
        let outcome = unit::call(stm, portion, &mut report);
        let written = line::put_line(room, outcome.answer, report);
        Told {
            state: outcome.stm,
            written,
        }
    }

    ghost some_width = { Prim.search rules };

    ghost wide_enough = { room_for_a_line };
}

// Hands on what can be given of the bytes, as far as there is room for the lines. `all` says that no bytes come after these.
pub fn hand_on(stm: Stm, bytes: &[u8], all: bool, output: &mut [u8]) -> Handed<Stm>
    ensures outcome { result ≡ handed_on stm (given_in (length output.old) all bytes.now) }
    ensures written { output.new ≡ placed (text_by lines stm (given_in (length output.old) all bytes.now).portions) output.old }
{
    portions::hand_on::<Lines>(stm, bytes, all, output)
}

// A turn of the program: `left` bytes were left at the front of the input, and with those that were read after them there are
// `to`. Where none were read, the input has ended. All that can be given is given: there is room for its lines.
pub fn turn(
    stm: Stm,
    input: &[u8; INPUT],
    left: usize,
    to: usize,
    output: &mut [u8; OUTPUT],
) -> Handed<Stm>
    ensures outcome { result ≡ handed_on stm (given_of (eqb to left) (take to input.now)) }
    ensures written { output.new ≡ placed (text_by lines stm (given_of (eqb to left) (take to input.now)).portions) output.old }
{
    hand_on(stm, portions::part(input, 0, to), to == left, output)
}
