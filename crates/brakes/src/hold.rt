// How bit 9 is held after a balise error.
ghost use Rattle.std.specs.Prelude.{◌≡◌};
ghost use Rattle.rules.specs.Hold.{is_up_to80, decided_at, held_on, is_unheld};

use rules::Hold;

fn is_up_to_80(v: u16) -> bool
    ensures { result ≡ is_up_to80 v }
{
    9 * u32::from(v) <= 250 * 80
}

// By the speed at the error.
pub(crate) fn decided_at(v: u16) -> Hold
    ensures { result ≡ decided_at v }
{
    if is_up_to_80(v) {
        Hold::Low(0)
    } else {
        Hold::High
    }
}

// After a further report in DA.
pub fn held_on(hold: Hold) -> Hold
    ensures { result ≡ held_on hold }
{
    match hold {
        Hold::Undecided | Hold::High => hold,
        Hold::Low(count) => Hold::Low(count.saturating_add(1).min(20)),
    }
}

// Whether it has ended, at this speed.
pub fn is_unheld(hold: Hold, v: u16) -> bool
    ensures { result ≡ is_unheld hold v }
{
    match hold {
        Hold::Undecided | Hold::High => is_up_to_80(v),
        Hold::Low(count) => 20 <= count,
    }
}
