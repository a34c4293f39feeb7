// The stay in an area, through events, ground and CS.
ghost use Rattle.std.specs.Prelude.{◌≡◌};
ghost use Rattle.areas.specs.Stays.{fresh_stay, begun_stay, cleared_stay, line_by, passed_stay, deletes_sections, covered_stay, area_speed};

use crate::rows::target_of;
use crate::{Area, Event, Stay};

// A stay that begins, with this line speed.
fn begun_stay(area: Area, line: Option<u16>) -> Stay
    ensures { result ≡ begun_stay area line }
{
    Stay {
        area,
        line,
        // A change of area ends a pending 50 m.
        missing: None,
    }
}

// After a start.
pub fn fresh_stay() -> Stay
    ensures { result ≡ fresh_stay }
{
    begun_stay(Area::Full, None)
}

// CS ends a pending 50 m; the area and the speed of the stay are kept.
pub fn cleared_stay(stay: Stay) -> Stay
    ensures { result ≡ cleared_stay stay }
{
    let missing = None;
    Stay { missing, ..stay }
}

// The line speed that an event brings.
fn line_by(event: Event, speed: u16) -> Option<u16>
    ensures { result ≡ line_by event speed }
{
    (event == Event::GMD).then_some(speed)
}

// The stay after an event, with the command's speed.
pub fn passed_stay(event: Event, speed: u16, stay: Stay) -> Stay
    ensures { result ≡ passed_stay event speed stay }
{
    if event == Event::NoOverlap {
        // The ground counts from the first such group.
        let missing = stay.missing.or(Some(0));
        return Stay { missing, ..stay };
    }
    begun_stay(target_of(stay.area, event), line_by(event, speed))
}

// Whether an event deletes the sections: a GMD that enters the partial area.
pub fn deletes_sections(event: Event, stay: Stay) -> bool
    ensures { result ≡ deletes_sections event stay }
{
    (event == Event::GMD) & (stay.area != Area::Partial)
}

// The stay after so many cm moved: the partial area is entered once 50 m are covered.
pub fn covered_stay(moved: u16, stay: Stay) -> Stay
    ensures { result ≡ covered_stay moved stay }
{
    let Some(covered) = stay.missing else {
        return stay;
    };
    let sum = covered as u32 + moved as u32;
    if 5000 <= sum {
        return begun_stay(target_of(stay.area, Event::NoOverlap), None);
    }
    Stay {
        missing: Some(sum as u16),
        ..stay
    }
}

// What VMAX takes of the area; outside the partial area the train's speed is left.
pub fn area_speed(speed: u16, stay: Stay) -> u16
    ensures { result ≡ area_speed speed stay }
{
    if stay.area == Area::Partial {
        stay.line.unwrap_or(130)
    } else {
        speed
    }
}
