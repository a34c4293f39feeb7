// The leads of the boundaries, added in one place: the extra lies in every one that has T_B.
ghost use Rattle.std.specs.Prelude.{◌≡◌};
ghost use Rattle.curve.specs.Lead.{leads_of};

use crate::{Leads, Times};

#[tactic(auto, unfolding(crate::specs::Lead::leads_of))]
pub fn leads_of(times: Times) -> Leads
    ensures { result ≡ leads_of times }
{
    let d = times.brake as u16 + times.extra as u16;
    let c = d + times.c as u16;
    let permitted = c + times.permitted as u16;
    let b = permitted + 30;
    let bf = b + times.bf as u16;
    Leads {
        d,
        c,
        permitted,
        b,
        bf,
    }
}
