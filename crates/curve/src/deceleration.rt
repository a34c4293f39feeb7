// The deceleration b.
ghost use Rattle.std.specs.Prelude.{◌≡◌};
ghost use Rattle.curve.specs.Deceleration.{level_of, gradient_from, deceleration_of};

use crate::{Direction, Gradient};

// On level track: full, or soft with HALKA on.
#[tactic(auto, unfolding(crate::specs::Deceleration::level_of))]
pub fn level_of(full: u16, soft: u16, halka: bool) -> u16
    ensures { result ≡ level_of full soft halka }
{
    if halka { soft } else { full }
}

// A signed gradient as a direction and a size.
impl From<i8> for Gradient {
    ghost from_gives = { λ slope gradient. gradient ≡ gradient_from slope };

    fn from(slope: i8) -> Gradient {
        Gradient {
            direction: if slope < 0 {
                Direction::Down
            } else {
                Direction::Up
            },
            size: slope.unsigned_abs(),
        }
    }
}

pub fn gradient_from(slope: i8) -> Gradient
    ensures { result ≡ gradient_from slope }
{
    Gradient::from(slope)
}

// On a gradient.
#[tactic(auto, unfolding(crate::specs::Deceleration::deceleration_of))]
pub fn deceleration_of(level: u16, gradient: Gradient) -> u32
    ensures { result ≡ deceleration_of level gradient }
{
    let level = level as u32;
    let size = gradient.size as u32;
    match gradient.direction {
        Direction::Up => level + 9 * size,
        Direction::Down => level.saturating_sub(10 * size),
    }
}
