// The reference pressure's change, and the drop.
ghost use Rattle.std.specs.Prelude.{◌≡◌};
ghost use Rattle.pressure.specs.Reference.{is_sinking, changed_of, drop_of};

use crate::Pressures;

// Whether the reference is above the pressure by no more than 30 kPa.
fn is_sinking(p: Pressures) -> bool
    ensures { result ≡ is_sinking p }
{
    (p.pressure < p.reference) & (p.reference <= p.pressure + 30.0)
}

// The pressures with the reference changed, as at every tenth report.
pub fn changed(p: Pressures) -> Pressures
    ensures { result ≡ changed_of p }
{
    if p.reference < p.pressure {
        return Pressures {
            reference: p.reference + 1.5,
            ..p
        };
    }
    if is_sinking(p) {
        return Pressures {
            reference: p.reference - 0.5,
            ..p
        };
    }
    p
}

// The drop: the reference less the pressure, rounded once.
pub fn drop_of(p: Pressures) -> f32
    ensures { result ≡ drop_of p }
{
    p.reference - p.pressure
}
