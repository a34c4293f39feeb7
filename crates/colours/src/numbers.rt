// 01's numbers of what is shown, of bars and of modes.
ghost use Rattle.std.specs.Prelude.{◌≡◌};
ghost use Rattle.colours.specs.Numbers.{showing_number, bar_number, mode_number};

use crate::{Bar, Mode};
use curve::Shown;

// A function, since Option and u8 are both std's and an impl of From would have to stand there.
pub fn showing_number(showing: Option<Shown>) -> u8
    ensures { result ≡ showing_number showing }
{
    match showing {
        None => 0,
        Some(shown) => interval::shown_number(shown),
    }
}

impl From<Bar> for u8 {
    ghost from_gives = { λ bar number. number ≡ bar_number bar };

    fn from(bar: Bar) -> u8 {
        match bar {
            Bar::Empty => 0,
            Bar::LightGrey => 1,
            Bar::Yellow => 2,
        }
    }
}

impl From<Mode> for u8 {
    ghost from_gives = { λ mode number. number ≡ mode_number mode };

    fn from(mode: Mode) -> u8 {
        match mode {
            Mode::Normal => 0,
            Mode::PreIndication => 1,
            Mode::Indication => 2,
            Mode::Warning => 3,
            Mode::Intervention => 4,
        }
    }
}
