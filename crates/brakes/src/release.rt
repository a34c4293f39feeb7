// What brakes, through an odometer report in DA and through commands 30 and 32.
ghost use Rattle.std.specs.Prelude.{ℕ, ◌≡◌, min};
ghost use Rattle.rules.specs.declared.Code.{Code};
ghost use Rattle.rules.specs.Numbers.{incident_of};
ghost use Rattle.rules.specs.Releases.{fresh_brakes, is_halt, is_braked, since_at, rolled_on, roll_at, is_rolled, roll_back, noted_brakes, service_fails, emergency_fails, added_brakes, roll_left, left_brakes, released_brakes, since_by, brakes_by};

use crate::causes::{added_at, added_by, any_stands, left_causes, no_causes, stands_with};
use crate::check::{check_left, checked_at, checked_by, fails_at};
use crate::hold::{decided_at, held_on};
use rules::{Brakes, Causes, Check, Hold, Incident, Order, Reading, Seen, Since, Train};

// No cause, no count, no note, no brake fault.
pub fn fresh_brakes() -> Brakes
    ensures { result ≡ fresh_brakes }
{
    Brakes {
        causes: no_causes(),
        since: Since {
            aimed: false,
            unexpected: false,
            landslide: false,
            balise: Hold::Undecided,
        },
        service: Check::Idle,
        emergency: Check::Idle,
        roll: None,
        drift: false,
        failed: false,
    }
}

// ---- the notes of a report

fn is_halt(r: Reading) -> bool
    ensures { result ≡ is_halt r }
{
    (r.speed == 0) & (r.moved == 0)
}

fn is_braked(full: u16, r: Reading) -> bool
    ensures { result ≡ is_braked full r }
{
    7 * i32::from(full) <= 10 * i32::from(r.measured)
}

fn since_at(full: u16, r: Reading, since: Since) -> Since
    ensures { result ≡ since_at full r since }
{
    let halted = is_halt(r);
    Since {
        aimed: since.aimed | halted,
        unexpected: since.unexpected | is_braked(full, r),
        landslide: since.landslide | halted,
        balise: held_on(since.balise),
    }
}

// The ground rolled with neutral, kept up to 501.
fn rolled_on(moved: u16, roll: Option<u16>) -> Option<u16>
    ensures { result ≡ rolled_on moved roll }
{
    roll.map(|covered| covered.saturating_add(moved).min(501))
}

fn roll_at(r: Reading, roll: Option<u16>) -> Option<u16>
    ensures { result ≡ roll_at r roll }
{
    if is_halt(r) {
        Some(0)
    } else if r.neutral {
        rolled_on(r.moved, roll)
    } else {
        None
    }
}

// Whether more than 500 cm were rolled.
pub fn is_rolled(roll: Option<u16>) -> bool
    ensures { result ≡ is_rolled roll }
{
    roll.is_some_and(|covered| 500 < covered)
}

// The ground rolled, after bit 10 is dropped.
fn roll_back(roll: Option<u16>) -> Option<u16>
    ensures { result ≡ roll_back roll }
{
    roll.map(|_| 0)
}

pub fn noted_brakes(train: Train, r: Reading, b: Brakes) -> Brakes
    ensures { result ≡ noted_brakes train r b }
{
    Brakes {
        since: since_at(train.full, r, b.since),
        roll: roll_at(r, b.roll),
        ..b
    }
}

// ---- adding

// Bit 11's order: the check that any order begins fails at T_B.
fn service_fails(train: Train, dropped: bool, b: Brakes) -> bool
    ensures { result ≡ service_fails train dropped b }
{
    fails_at(any_stands(b.causes), train.times.brake, dropped, b.service)
}

// The check of an emergency order fails at T_EBCHK. It differs from the other in cause, limit and check, and `fails_at` is what they share.
fn emergency_fails(train: Train, dropped: bool, b: Brakes) -> bool
    ensures { result ≡ emergency_fails train dropped b }
{
    fails_at(
        stands_with(Order::Emergency, b.causes),
        train.check,
        dropped,
        b.emergency,
    )
}

// The brakes with the causes ordered at an odometer report, both checks one report on.
pub fn added_brakes(train: Train, dropped: bool, s: Seen, b: Brakes) -> Brakes
    ensures { result ≡ added_brakes train dropped s b }
{
    let fault = service_fails(train, dropped, b);
    let after = added_at(s, fault, b.causes);
    Brakes {
        causes: after,
        service: checked_at(
            any_stands(b.causes),
            any_stands(after),
            train.times.brake,
            dropped,
            b.service,
        ),
        emergency: checked_at(
            stands_with(Order::Emergency, b.causes),
            stands_with(Order::Emergency, after),
            train.check,
            dropped,
            b.emergency,
        ),
        drift: b.drift | fault,
        failed: b.failed | emergency_fails(train, dropped, b),
        ..b
    }
}

// ---- releasing

// The rolled ground, by whether bit 10 stood and whether it is left.
fn roll_left(stood: bool, left: bool, roll: Option<u16>) -> Option<u16>
    ensures { result ≡ roll_left stood left roll }
{
    if stood & !left { roll_back(roll) } else { roll }
}

// What is left with these causes.
fn left_brakes(c: Causes, b: Brakes) -> Brakes
    ensures { result ≡ left_brakes c b }
{
    let any = any_stands(c);
    Brakes {
        causes: c,
        service: check_left(any, b.service),
        emergency: check_left(stands_with(Order::Emergency, c), b.emergency),
        roll: roll_left(b.causes.rolling, c.rolling, b.roll),
        drift: b.drift & any,
        ..b
    }
}

// The brakes after fresh presses, or none, of LOSS and text.
pub fn released_brakes(s: Seen, loss: bool, text: bool, b: Brakes) -> Brakes
    ensures { result ≡ released_brakes s loss text b }
{
    left_brakes(left_causes(s, loss, text, b.causes), b)
}

// ---- commands 30 and 32

// A cause that is ordered anew is noted afresh.
fn since_by(incident: Option<Incident>, v: u16, since: Since) -> Since
    ensures { (code : Code) (which : ℕ) → incident_of code which ≡ incident → result ≡ since_by code which v since }
{
    match incident {
        Some(Incident::AimedStop) => Since {
            aimed: false,
            ..since
        },
        Some(Incident::UnexpectedStop) => Since {
            unexpected: false,
            ..since
        },
        Some(Incident::Landslide) => Since {
            landslide: false,
            ..since
        },
        Some(Incident::BaliseError) => Since {
            balise: decided_at(v),
            ..since
        },
        None => since,
    }
}

// The brakes with the causes that a command adds, by what it tells; v is the last odometer figure.
pub fn brakes_by(incident: Option<Incident>, v: u16, b: Brakes) -> Brakes
    ensures { (code : Code) (which : ℕ) → incident_of code which ≡ incident → result ≡ brakes_by code which v b }
{
    let after = added_by(incident, b.causes);
    Brakes {
        causes: after,
        since: since_by(incident, v, b.since),
        service: checked_by(any_stands(b.causes), any_stands(after), b.service),
        emergency: checked_by(
            stands_with(Order::Emergency, b.causes),
            stands_with(Order::Emergency, after),
            b.emergency,
        ),
        ..b
    }
}
