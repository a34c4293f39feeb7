// The trip sheet of a stream: bytes are handed to the unit portion by portion, and the lines that are due are printed.
//
// No public function has a `requires`: each is defined at every trip, at every bytes and at every room.
#![tactic(auto)]

ghost use Rattle.std.specs.Prelude.{◌≡◌, eqb, length, take};
ghost use Rattle.std.proofs.Common.{rules};
ghost use Rattle.wire.specs.Bytes.{placed};
ghost use Rattle.portions.specs.Portions.{given_of};
ghost use Rattle.portions.specs.Reads.{text_by};
ghost use Rattle.sheet.specs.Paging.{added_width};
ghost use Rattle.printing.specs.Sheets.{fresh_trip, printer, handed_on, given_in};
ghost use Rattle.printing.specs.Rooms.{printer_in, room_for_the_most};

use paging::ADDED;
pub use portions::Handed;
use portions::{INPUT, Tell, Told};
use rules::Stm;
use sheet::Sheet;
use wire::{REPORT_LENGTH, SHORTEST};

// The bytes of output: what as many commands add as the input can hold, a rest after them, and one to find no more.
pub const OUTPUT: usize = (INPUT / SHORTEST + 2) * ADDED;

// A unit and the sheet of its trip.
#[derive(Clone, Copy)]
pub struct Trip {
    pub stm: Stm,
    pub sheet: Sheet,
}

// A trip before any command.
pub fn fresh() -> Trip
    ensures { result ≡ fresh_trip }
{
    Trip {
        stm: unit::fresh(),
        sheet: paging::fresh(),
    }
}

// The writer of the trip sheet: for each accepted command what it adds.
pub struct Printer;

impl Tell for Printer {
    type State = Trip;

    ghost writer = { printer };

    ghost writer_in = { printer_in };

    ghost WIDTH = { added_width };

    const WIDTH: usize = ADDED;

    // Hands one portion to the unit and, where it is accepted, prints what is due.
    fn tell(trip: Trip, portion: &[u8], room: &mut [u8]) -> Told<Trip> {
        let mut report = [255u8; REPORT_LENGTH];
        let outcome = unit::call(trip.stm, portion, &mut report);
        let stm = outcome.stm;
        if unit::answer_number(outcome.answer) == 0 {
            let put = paging::print(trip.sheet, wire::be32(portion, 1), report, room);
            return Told {
                state: Trip {
                    stm,
                    sheet: put.sheet,
                },
                written: put.written,
            };
        }
        Told {
            state: Trip { stm, ..trip },
            written: 0,
        }
    }

    ghost some_width = { Prim.search rules };

    ghost wide_enough = { room_for_the_most };
}

// Hands on what can be given of the bytes, as far as there is room for what it adds. `all` says that no bytes come after these.
pub fn hand_on(trip: Trip, bytes: &[u8], all: bool, output: &mut [u8]) -> Handed<Trip>
    ensures outcome { result ≡ handed_on trip (given_in (length output.old) all bytes.now) }
    ensures written { output.new ≡ placed (text_by printer trip (given_in (length output.old) all bytes.now).portions) output.old }
{
    portions::hand_on::<Printer>(trip, bytes, all, output)
}

// A turn of the program: `left` bytes were left at the front of the input, and with those that were read after them there are
// `to`. Where none were read, the input has ended. All that can be given is given: there is room for what it adds.
pub fn turn(
    trip: Trip,
    input: &[u8; INPUT],
    left: usize,
    to: usize,
    output: &mut [u8; OUTPUT],
) -> Handed<Trip>
    ensures outcome { result ≡ handed_on trip (given_of (eqb to left) (take to input.now)) }
    ensures written { output.new ≡ placed (text_by printer trip (given_of (eqb to left) (take to input.now)).portions) output.old }
{
    hand_on(trip, portions::part(input, 0, to), to == left, output)
}
