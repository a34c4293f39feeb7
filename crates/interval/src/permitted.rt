// A curve's permitted speed.
ghost use Rattle.std.specs.Prelude.{◌≡◌};
ghost use Rattle.interval.specs.Permitted.{permitted_of};

use curve::{Curve, reached_at_kmh};

// The highest limit in km/h.
pub const TOP: u16 = 300;

// The largest whole km/h up to 300 at which the boundary with this lead is not reached, by halving:
// it is not reached at `low`, and is reached from `high` on. The inner loop brings `high` down for as
// long as the middle is reached; kept apart, the two ways are a branch that the processor predicts.
pub fn permitted_of(curve: Curve, level: u16, lead: u16) -> u16
    ensures { result ≡ permitted_of curve level lead }
{
    let mut low = 0;
    let mut high = TOP + 1;
    while low + 1 < high {
        let mut middle = (low + high) / 2;
        while reached_at_kmh(curve, level, middle, lead) {
            high = middle;
            middle = (low + high) / 2;
        }
        low = middle;
    }
    low
}
