// How far to the next change of a curve's computed interval.
ghost use Rattle.std.specs.Prelude.{◌≡◌};
ghost use Rattle.curve.specs.Ground.{left_of};
ghost use Rattle.interval.specs.Changes.{to_change};

use crate::intervals::interval_of;
use curve::{Braking, Curve, Interval, Leads, NEVER, f_reach_of, reach_of};

// The ground left to the first boundary that makes a change. Of the boundaries after an interval, E's with lead 0 among them, the one
// with the longest lead is reached first; after E only F comes, and nothing after F.
fn next_reach(curve: Curve, braking: Braking, v: u16) -> Option<u32>
    ensures { left_of result ≡ to_change curve braking v }
{
    let level = braking.level;
    let Leads { d, c, b, bf, .. } = braking.leads;
    match interval_of(curve, braking, v) {
        Interval::A => reach_of(curve, level, v, d.max(c.max(b.max(bf)))),
        Interval::Bf => reach_of(curve, level, v, d.max(c.max(b))),
        Interval::B => reach_of(curve, level, v, d.max(c)),
        Interval::C => reach_of(curve, level, v, d),
        Interval::D => reach_of(curve, level, v, 0),
        Interval::E => f_reach_of(curve, level, braking.margin, v),
        Interval::F => Some(NEVER),
    }
}

// The most cm that can still be covered at v with no change, and `NEVER` where there is none down to
// distance 0.
pub fn to_change(curve: Curve, braking: Braking, v: u16) -> u32
    ensures { result ≡ to_change curve braking v }
{
    next_reach(curve, braking, v).unwrap_or(0)
}
