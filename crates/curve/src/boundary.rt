// The boundary rule: whether a boundary is reached, and how much ground is left to it.
ghost use Rattle.std.specs.Prelude.{◌≡◌};
ghost use Rattle.curve.specs.Boundary.{is_above, is_reached, is_reached_f, is_reached_at_kmh};
ghost use Rattle.curve.specs.Ground.{reach_of, reach_of_f};

use crate::Curve;
use crate::rule::{Line, target_of};

// Whether a speed is above a curve's floor, its target or release speed.
#[tactic(auto, unfolding(crate::specs::Boundary::is_above))]
fn is_above(u: u32, curve: Curve) -> bool
    ensures { result ≡ is_above u curve }
{
    250 * (curve.speed as u32) < u
}

// Whether the boundary with a lead is reached at v.
pub fn reached(curve: Curve, level: u16, v: u16, lead: u16) -> bool
    ensures { result ≡ is_reached curve level v lead }
{
    let line = Line::at(curve, level, v, lead);
    is_above(line.u, curve) & line.holds(1)
}

// Whether F is reached at v.
pub fn f_reached(curve: Curve, level: u16, margin: u8, v: u16) -> bool
    ensures { result ≡ is_reached_f curve level margin v }
{
    let line = Line::of_f(curve, level, margin, v);
    is_above(9 * v as u32, curve) & (target_of(curve) < line.u) & line.holds(1)
}

// Whether the boundary with a lead is reached at k km/h.
pub fn reached_at_kmh(curve: Curve, level: u16, k: u16, lead: u16) -> bool
    ensures { result ≡ is_reached_at_kmh curve level k lead }
{
    let line = Line::at_kmh(curve, level, k, lead);
    is_above(line.u, curve) & line.holds(9)
}

// ---- how much ground is left

// What the boundary rule tells at v, of the boundary with a lead: how many cm can still be covered with
// it not reached, and `None` where it is reached.
pub fn reach_of(curve: Curve, level: u16, v: u16, lead: u16) -> Option<u32>
    ensures { result ≡ reach_of curve level v lead }
{
    let line = Line::at(curve, level, v, lead);
    line.reach(is_above(line.u, curve))
}

// What it tells at v, of F.
pub fn f_reach_of(curve: Curve, level: u16, margin: u8, v: u16) -> Option<u32>
    ensures { result ≡ reach_of_f curve level margin v }
{
    let line = Line::of_f(curve, level, margin, v);
    line.reach(is_above(9 * v as u32, curve) & (target_of(curve) < line.u))
}
