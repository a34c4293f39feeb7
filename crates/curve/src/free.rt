// A place that holds no curve.
ghost use Rattle.std.specs.Prelude.{◌≡◌};
ghost use Rattle.curve.specs.Free.{free_curve};

use crate::Curve;

pub fn free_curve() -> Curve
    ensures { result ≡ free_curve }
{
    Curve::default()
}
