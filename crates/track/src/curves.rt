// The places of curves: a new one, an ended one, which ids are held. Each is `holding`'s at a curve, by the definition of its own.
ghost use Rattle.std.specs.Prelude.{◌≡◌};
ghost use Rattle.rules.specs.Places.{holds_curve, all_curves_held, given_curve, ended_curve};

use curve::Curve;
use places::PLACES;

// Whether a place holds the id.
pub fn holds_curve(id: u8, curves: [Curve; PLACES]) -> bool
    ensures { result ≡ holds_curve id curves }
{
    holding::holds(id, &curves)
}

// Whether every place holds a curve.
pub fn all_curves_held(curves: [Curve; PLACES]) -> bool
    ensures { result ≡ all_curves_held curves }
{
    holding::all_held(&curves)
}

// A new curve among the others; in the place of its id it has the past in B that was there.
#[tactic(auto, unfolding(rules::specs::Places::given_curve))]
pub fn give_curve(new: Curve, curves: [Curve; PLACES]) -> [Curve; PLACES]
    ensures { result ≡ given_curve new curves }
{
    let mut next = curves;
    holding::give(new, &mut next);
    next
}

// The curves without the one of this id.
#[tactic(auto, unfolding(rules::specs::Places::ended_curve))]
pub fn end_curve(id: u8, curves: [Curve; PLACES]) -> [Curve; PLACES]
    ensures { result ≡ ended_curve id curves }
{
    let mut next = curves;
    holding::end(id, &mut next);
    next
}
