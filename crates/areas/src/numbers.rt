// 02's numbers of areas and events.
ghost use Rattle.std.specs.Prelude.{◌≡◌};
ghost use Rattle.areas.specs.Numbers.{area_number, event_of};

use crate::{Area, Event};

impl From<Area> for u8 {
    ghost from_gives = { λ area number. number ≡ area_number area };

    fn from(area: Area) -> u8 {
        match area {
            Area::NonEquipped => 7,
            Area::Partial => 4,
            Area::HT => 9,
            Area::Full => 8,
        }
    }
}

// The event of a byte from 0 to 6.
#[tactic(auto, unfolding(crate::specs::Numbers::event_of))]
pub fn event_of(byte: u8) -> Event
    ensures { result ≡ event_of byte }
{
    match byte {
        0 => Event::Signal,
        1 => Event::GMD,
        2 => Event::HTDeleted,
        3 => Event::NoOverlap,
        4 => Event::ToNonEquipped,
        5 => Event::ToHT,
        _ => Event::ToFull,
    }
}
