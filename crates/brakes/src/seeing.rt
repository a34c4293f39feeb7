// What the table of causes looks at.
ghost use Rattle.std.specs.Prelude.{◌≡◌};
ghost use Rattle.rules.specs.Releases.{is_rolled};
ghost use Rattle.rules.specs.Odometer.{is_insufficient, seen_with};

use crate::release::is_rolled;
use curve::{Interval, Judged};
use places::CURVES;
use pressure::Measured;
use rules::{Kept, Seen, Since, Train};

// The drop is below the sufficient application.
pub fn is_insufficient(train: Train, feedback: Measured) -> bool
    ensures { result ≡ is_insufficient train feedback }
{
    pressure::drop_of(feedback.pressures) < f32::from(train.sufficient)
}

// Where the curves say this, and VMAX is this: by the parameters of the definition, one by one.
pub fn seen_with(
    judged: [Judged; CURVES],
    vmax: u16,
    train: Train,
    feedback: Measured,
    kept: Kept,
    since: Since,
    roll: Option<u16>,
) -> Seen
    ensures { result ≡ seen_with judged vmax train feedback kept since roll }
{
    Seen {
        speed: kept.speed,
        vmax,
        margin: train.emergency,
        d: places::any_brakes(Interval::D, judged),
        e: places::any_brakes(Interval::E, judged),
        f: places::any_brakes(Interval::F, judged),
        insufficient: is_insufficient(train, feedback),
        halka: kept.halka,
        since,
        rolled: is_rolled(roll),
    }
}

// The same with another rolled ground.
pub fn rolled_in(s: Seen, roll: Option<u16>) -> Seen
    ensures { result ≡ record { speed = s.speed; vmax = s.vmax; margin = s.margin; d = s.d; e = s.e; f = s.f; insufficient = s.insufficient; halka = s.halka; since = s.since; rolled = is_rolled roll } }
{
    Seen {
        rolled: is_rolled(roll),
        ..s
    }
}
