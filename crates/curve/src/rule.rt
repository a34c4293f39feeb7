// The boundary rule's line: share × (u² − w²) ≥ 81 × b × (ground − lead), both sides signed. It is one line for
// every use: u is a speed in 250ths of a km/h, ground and lead are in one unit, and share goes with it.
ghost use Rattle.std.specs.Prelude.{◌≡◌, true, false, cond, ◌*◌, ◌-◌, ◌≤◌, ◌<◌};
ghost use Rattle.curve.specs.Deceleration.{deceleration_of};
ghost use Rattle.curve.specs.Boundary.{left_side, right_side, line_for, target_of};
ghost use Rattle.curve.specs.Ground.{moved_by, largest_failing, most_before, never};

use crate::deceleration::deceleration_of;
use crate::{Curve, Kind};

// What is told of a boundary that is not reached down to distance 0.
pub const NEVER: u32 = 4294967295;

// w of a curve.
#[tactic(auto, unfolding(crate::specs::Boundary::target_of))]
pub(crate) fn target_of(curve: Curve) -> u32
    ensures { result ≡ target_of curve }
{
    match curve.kind {
        Kind::SpeedTarget => 250 * curve.speed as u32,
        Kind::ExpectStop => 0,
    }
}

// A curve at u, on level track braked by `level`, with what a lead takes of the ground. The bounds follow
// from the widths of a curve's and a train's figures.
#[derive(Clone, Copy)]
pub(crate) struct Line {
    pub(crate) curve: Curve,
    pub(crate) level: u16,
    pub(crate) u: u32,
    pub(crate) lead: u64,
    ghost speed: { u ≤ 16777215 },
    ghost taken: { lead ≤ 1099511627776 },
}

impl Line {
    // At v, with a lead.
    pub(crate) fn at(curve: Curve, level: u16, v: u16, lead: u16) -> Line
        ensures { (result.curve ≡ curve) × (result.level ≡ level) × (result.u ≡ 9 * v) × (result.lead ≡ v * lead) }
    {
        Line {
            curve,
            level,
            u: 9 * v as u32,
            lead: v as u64 * lead as u64,
        }
    }

    // At k km/h, with a lead.
    pub(crate) fn at_kmh(curve: Curve, level: u16, k: u16, lead: u16) -> Line
        ensures { (result.curve ≡ curve) × (result.level ≡ level) × (result.u ≡ 250 * k) × (result.lead ≡ 250 * k * lead) }
    {
        let u = 250 * k as u32;
        Line {
            curve,
            level,
            u,
            lead: u as u64 * lead as u64,
        }
    }

    // For F at v: less its margin, with no lead.
    pub(crate) fn of_f(curve: Curve, level: u16, margin: u8, v: u16) -> Line
        ensures { (result.curve ≡ curve) × (result.level ≡ level) × (result.u ≡ 9 * v - 250 * margin) × (result.lead ≡ 0) }
    {
        Line {
            curve,
            level,
            u: (9 * v as u32).saturating_sub(250 * margin as u32),
            lead: 0,
        }
    }

    fn left_side(self, share: u16) -> i64
        requires { share ≤ 450 }
        ensures { result ≡ left_side share self.u (target_of self.curve) }
    {
        let u = self.u as u64;
        let w = target_of(self.curve) as u64;
        share as i64 * ((u * u) as i64 - (w * w) as i64)
    }

    // `parts` of the ground's unit make a cm.
    fn right_side(self, parts: u8) -> i64
        ensures { result ≡ right_side (deceleration_of self.level self.curve.gradient) (parts * self.curve.distance) self.lead }
    {
        let b = deceleration_of(self.level, self.curve.gradient);
        let distance = parts as u64 * self.curve.distance as u64;
        81 * b as i64 * (distance as i64 - self.lead as i64)
    }

    // Whether it holds, with both sides multiplied by `times`.
    pub(crate) fn holds(self, times: u8) -> bool
        requires { times ≤ 9 }
        ensures { result ≡ line_for self.curve self.level (50 * times) self.u (10 * times) self.lead }
    {
        self.left_side(50 * times as u16) >= self.right_side(10 * times)
    }

    // The ground that can still be covered where it doesn't hold. It holds at each distance x with
    // 810 × b × x ≤ 50 × (u² − w²) + 81 × b × lead.
    fn ground_left(self) -> u32
        requires { (target_of self.curve < self.u) × (line_for self.curve self.level 50 self.u 10 self.lead ≡ false) }
        ensures { result ≡ largest_failing (λ n. line_for (moved_by self.curve n) self.level 50 self.u 10 self.lead) self.curve.distance }
    {
        let b = deceleration_of(self.level, self.curve.gradient) as u64;
        let u = self.u as u64;
        let w = target_of(self.curve) as u64;
        let reaches = (50 * (u * u - w * w) + 81 * b * self.lead) / (810 * b);
        self.curve.distance - 1 - reaches as u32
    }

    // What is left to the boundary where the speed is above the curve's target (`asked`), and else that it is never reached.
    pub(crate) fn reach(self, asked: bool) -> Option<u32>
        requires { asked ≡ true → target_of self.curve < self.u }
        ensures { result ≡ cond asked (cond (line_for self.curve self.level 50 self.u 10 self.lead) None (Some (most_before (λ n. line_for (moved_by self.curve n) self.level 50 self.u 10 self.lead) self.curve.distance))) (Some never) }
    {
        if !asked {
            Some(NEVER)
        } else if self.holds(1) {
            None
        } else {
            Some(self.ground_left())
        }
    }
}
