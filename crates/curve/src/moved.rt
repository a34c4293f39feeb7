// A curve as the train moves.
ghost use Rattle.std.specs.Prelude.{◌≡◌};
ghost use Rattle.curve.specs.Ground.{moved_by};

use crate::Curve;

// A curve after so many cm moved.
pub fn moved_by(curve: Curve, moved: u16) -> Curve
    ensures { result ≡ moved_by curve moved }
{
    Curve {
        distance: curve.distance.saturating_sub(moved as u32),
        ..curve
    }
}
