// Which events lead from which area to which.
ghost use Rattle.std.specs.Prelude.{◌≡◌};
ghost use Rattle.areas.specs.Rows.{is_taken, target_of};

use crate::{Area, Event};

// Whether the event is taken in the area.
pub fn is_taken(area: Area, event: Event) -> bool
    ensures { result ≡ is_taken area event }
{
    match event {
        Event::Signal => (area == Area::NonEquipped) | (area == Area::HT),
        Event::GMD => (area == Area::NonEquipped) | (area == Area::Partial),
        Event::HTDeleted | Event::NoOverlap => area == Area::Full,
        Event::ToNonEquipped => area != Area::NonEquipped,
        Event::ToHT => area != Area::HT,
        Event::ToFull => area != Area::Full,
    }
}

// The area to which an event leads; one that is not taken leaves it.
pub(crate) fn target_of(area: Area, event: Event) -> Area
    ensures { result ≡ target_of area event }
{
    if !is_taken(area, event) {
        return area;
    }
    match event {
        Event::Signal | Event::GMD | Event::HTDeleted | Event::NoOverlap => Area::Partial,
        Event::ToNonEquipped => Area::NonEquipped,
        Event::ToHT => Area::HT,
        Event::ToFull => Area::Full,
    }
}
