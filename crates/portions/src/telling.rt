// Portions are handed to a writer, one behind the other.
ghost use Rattle.std.specs.Prelude.{◌≡◌, ◌≤◌, ◌<◌, ◌/◌, ℕ, List, length};
ghost use Rattle.wire.specs.Bytes.{placed};
ghost use Rattle.portions.specs.Portions.{given_within};
ghost use Rattle.portions.specs.Reads.{Writer, text_by};
ghost use Rattle.portions.specs.Told.{handed_to};

use crate::next::next_portion;

// What has come of one portion: the next state, and how many bytes its text has.
#[derive(Clone, Copy)]
pub struct Told<S> {
    pub state: S,
    pub written: usize,
}

// What has come of bytes that were handed on: the state, how many of them were used, how many bytes of output were written, and
// whether the stream has ended.
#[derive(Clone, Copy)]
pub struct Handed<S> {
    pub state: S,
    pub used: usize,
    pub written: usize,
    pub ended: bool,
}

// A writer: for each portion it puts a text, none longer than its width.
pub trait Tell {
    type State: Copy;

    ghost writer: { Writer Self.State };

    // The writer where there are so many bytes of room.
    ghost writer_in: { ℕ → Writer Self.State };

    ghost WIDTH: { ℕ };

    const WIDTH: usize;

    // Hands one portion on, and puts its text at the front of the room.
    fn tell(state: Self::State, portion: &[u8], room: &mut [u8]) -> Told<Self::State>
        ensures state_after { result.state ≡ (writer_in (length room.old)).next state portion.now }
        ensures count { result.written ≡ length ((writer_in (length room.old)).text state portion.now) }
        ensures short { result.written ≤ WIDTH }
        ensures written { room.new ≡ placed ((writer_in (length room.old)).text state portion.now) room.old };

    ghost some_width: { 0 < WIDTH };

    // Where there is room for the widest text, more of it makes no difference.
    ghost wide_enough: { (room : ℕ) (x : Self.State) (p : List ℕ)
        → WIDTH ≤ room
        → ((writer_in room).next x p ≡ writer.next x p) × ((writer_in room).text x p ≡ writer.text x p) };
}

// Hands on what can be given of the bytes, as far as there is room for the texts. `all` says that no bytes come after these.
pub fn hand_on<T: Tell>(
    state: T::State,
    bytes: &[u8],
    all: bool,
    output: &mut [u8],
) -> Handed<T::State>
    ensures outcome { result ≡ handed_to T.writer state (given_within (length output.old / T.WIDTH) all bytes.now) }
    ensures written { output.new ≡ placed (text_by T.writer state (given_within (length output.old / T.WIDTH) all bytes.now).portions) output.old }
{
    let most = output.len() / T::WIDTH;
    let mut state = state;
    let mut used = 0;
    let mut written = 0;
    for _ in 0..most {
        let rest = &bytes[used..];
        let Some(portion) = next_portion(rest, all) else {
            return Handed {
                state,
                used,
                written,
                ended: all,
            };
        };
        let n = portion.length();
        let told = T::tell(state, &rest[..n], &mut output[written..]);
        state = told.state;
        written += told.written;
        used += n;
        if portion.is_last() {
            return Handed {
                state,
                used,
                written,
                ended: true,
            };
        }
    }
    Handed {
        state,
        used,
        written,
        ended: false,
    }
}
