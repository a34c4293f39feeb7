// The table of causes, column by column; each column is the causes for which its test passes.
ghost use Rattle.std.specs.Prelude.{ℕ, ◌≡◌, not, ◌&&◌, ◌||◌, false, ◌+◌, ◌*◌, leb};
ghost use Rattle.rules.specs.Numbers.{incident_of, is_order};
ghost use Rattle.rules.specs.declared.Cause.{Cause};
ghost use Rattle.rules.specs.declared.Code.{Code};
ghost use Rattle.rules.specs.Table.{stands, causes_for, no_causes, curve_orders, ordered_at, ordered_by, strength_of, stands_with, any_stands, order_of, is_slow, releasable_when, others_releasable, added_causes, pressed_for, is_dropped, left_causes};
ghost use Rattle.rules.specs.Reports.{would_drop};

use crate::hold::is_unheld;
use rules::{Causes, Incident, Order, Seen};

// Every cause, or none.
fn alike(stands: bool) -> Causes
    ensures { result ≡ causes_for (λ cause. stands) }
{
    Causes {
        overspeed: stands,
        excess: stands,
        full: stands,
        soft: stands,
        emergency: stands,
        aimed: stands,
        unexpected: stands,
        speed: stands,
        landslide: stands,
        balise: stands,
        rolling: stands,
        service: stands,
    }
}

pub fn no_causes() -> Causes
    ensures { result ≡ no_causes }
{
    alike(false)
}

// What a test says of each cause, by whether it stands in c and in d.
fn each<F: Fn(bool, bool) -> bool>(c: Causes, d: Causes, test: F) -> Causes
    requires { F.IsAlwaysCallable test }
    ensures { (cause : Cause) → F.post test (stands c cause) (stands d cause) (stands result cause) }
{
    Causes {
        overspeed: test(c.overspeed, d.overspeed),
        excess: test(c.excess, d.excess),
        full: test(c.full, d.full),
        soft: test(c.soft, d.soft),
        emergency: test(c.emergency, d.emergency),
        aimed: test(c.aimed, d.aimed),
        unexpected: test(c.unexpected, d.unexpected),
        speed: test(c.speed, d.speed),
        landslide: test(c.landslide, d.landslide),
        balise: test(c.balise, d.balise),
        rolling: test(c.rolling, d.rolling),
        service: test(c.service, d.service),
    }
}

// Those of c that are among d too.
fn common(c: Causes, d: Causes) -> Causes
    ensures { result ≡ causes_for (λ cause. stands c cause && stands d cause) }
{
    each(c, d, |here, there| here & there)
}

// Those of c that are not among d.
fn without(c: Causes, d: Causes) -> Causes
    ensures { result ≡ causes_for (λ cause. stands c cause && not (stands d cause)) }
{
    each(c, d, |here, there| here & !there)
}

// Those of c and those of d.
fn together(c: Causes, d: Causes) -> Causes
    ensures { result ≡ causes_for (λ cause. stands c cause || stands d cause) }
{
    each(c, d, |here, there| here | there)
}

// Whether any order stands.
pub fn any_stands(c: Causes) -> bool
    ensures { result ≡ any_stands c }
{
    c.overspeed
        | c.excess
        | c.full
        | c.soft
        | c.emergency
        | c.aimed
        | c.unexpected
        | c.speed
        | c.landslide
        | c.balise
        | c.rolling
        | c.service
}

// ---- the column "Ordered when"

// Whether v is a limit and so many km/h more, or above.
fn reaches(v: u16, limit: u16, more: u8) -> bool
    ensures { result ≡ leb (250 * (limit + more)) (9 * v) }
{
    250 * (u32::from(limit) + u32::from(more)) <= 9 * u32::from(v)
}

fn curve_orders(s: Seen) -> bool
    ensures { result ≡ curve_orders s }
{
    (s.d & s.insufficient) | s.e
}

// The causes with those ordered at an odometer report; `fault` is bit 11's order.
pub fn added_at(s: Seen, fault: bool, c: Causes) -> Causes
    ensures { result ≡ added_causes (ordered_at s fault) c }
{
    let curves = curve_orders(s);
    let ordered = Causes {
        overspeed: reaches(s.speed, s.vmax, 10),
        excess: reaches(s.speed, s.vmax, s.margin),
        full: curves & !s.halka,
        soft: curves & s.halka,
        emergency: s.f,
        rolling: s.rolled,
        service: fault,
        ..no_causes()
    };
    together(c, ordered)
}

// The causes that another command orders, by what it tells.
fn ordered_by(incident: Option<Incident>) -> Causes
    ensures { (code : Code) (which : ℕ) → incident_of code which ≡ incident → result ≡ causes_for (ordered_by code which) }
{
    match incident {
        Some(Incident::AimedStop) => Causes {
            aimed: true,
            ..no_causes()
        },
        Some(Incident::UnexpectedStop) => Causes {
            unexpected: true,
            speed: true,
            ..no_causes()
        },
        Some(Incident::Landslide) => Causes {
            landslide: true,
            ..no_causes()
        },
        Some(Incident::BaliseError) => Causes {
            balise: true,
            ..no_causes()
        },
        None => no_causes(),
    }
}

// The causes with those that it orders.
pub fn added_by(incident: Option<Incident>, c: Causes) -> Causes
    ensures { (code : Code) (which : ℕ) → incident_of code which ≡ incident → result ≡ added_causes (ordered_by code which) c }
{
    together(c, ordered_by(incident))
}

// ---- the column "Strength"

// The causes of this strength.
fn of_strength(strength: Order) -> Causes
    ensures { result ≡ causes_for (λ cause. is_order strength (strength_of cause)) }
{
    let emergency = strength == Order::Emergency;
    let full = strength == Order::Full;
    let soft = strength == Order::Soft;
    Causes {
        overspeed: soft,
        excess: emergency,
        full,
        soft,
        emergency,
        aimed: emergency,
        unexpected: emergency,
        speed: full,
        landslide: full,
        balise: soft,
        rolling: soft,
        service: emergency,
    }
}

// Whether a cause of this strength stands.
pub fn stands_with(strength: Order, c: Causes) -> bool
    ensures { result ≡ stands_with strength c }
{
    any_stands(common(c, of_strength(strength)))
}

// The strongest order; soft is full without soft braking.
pub fn order_of(softly: bool, c: Causes) -> Order
    ensures { result ≡ order_of softly c }
{
    if stands_with(Order::Emergency, c) {
        Order::Emergency
    } else if stands_with(Order::Full, c) {
        Order::Full
    } else if stands_with(Order::Soft, c) {
        if softly { Order::Soft } else { Order::Full }
    } else {
        Order::Nothing
    }
}

// ---- the column "Releasable when"

fn is_slow(s: Seen) -> bool
    ensures { result ≡ is_slow s }
{
    9 * u32::from(s.speed) < 250 * (u32::from(s.vmax) + 5)
}

// The causes that are releasable; `others` is bit 11's test.
fn releasable(s: Seen, others: bool) -> Causes
    ensures { result ≡ causes_for (releasable_when s others) }
{
    let slow = is_slow(s);
    let clear = !s.d;
    let since = s.since;
    Causes {
        overspeed: slow,
        excess: slow,
        full: clear,
        soft: clear,
        emergency: clear,
        aimed: since.aimed,
        unexpected: since.unexpected,
        speed: slow,
        landslide: since.landslide,
        balise: is_unheld(since.balise, s.speed),
        rolling: true,
        service: others,
    }
}

// Whether all that stand are releasable, bit 11 itself left out.
fn others_releasable(s: Seen, c: Causes) -> bool
    ensures { result ≡ others_releasable s c }
{
    !any_stands(without(c, releasable(s, true)))
}

// ---- releasing

// The causes that presses of LOSS and text may drop.
fn pressed(loss: bool, text: bool) -> Causes
    ensures { result ≡ causes_for (pressed_for loss text) }
{
    Causes {
        rolling: text,
        ..alike(loss)
    }
}

// The causes that the presses would drop.
fn dropped(s: Seen, loss: bool, text: bool, c: Causes) -> Causes
    ensures { result ≡ causes_for (is_dropped s loss text c) }
{
    let free = releasable(s, others_releasable(s, c));
    common(pressed(loss, text), free)
}

// The causes that are left.
pub fn left_causes(s: Seen, loss: bool, text: bool, c: Causes) -> Causes
    ensures { result ≡ left_causes s loss text c }
{
    without(c, dropped(s, loss, text, c))
}

// Whether a cause that stands would be dropped.
pub fn would_drop(s: Seen, loss: bool, text: bool, c: Causes) -> bool
    ensures { result ≡ would_drop s loss text c }
{
    any_stands(common(c, dropped(s, loss, text, c)))
}
