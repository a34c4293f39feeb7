// The rows, and the one that holds.
ghost use Rattle.std.specs.Prelude.{◌≡◌};
ghost use Rattle.colours.specs.Rows.{rows, is_met, holds_for, row_of};

use crate::{Bar, Mode, Row};
use curve::{Interval, Shown};

// How many rows there are.
pub const ROWS: usize = 11;

// The row for no curve (01).
const NO_CURVE: Row = Row {
    showing: None,
    past: None,
    sufficient: None,
    bar: Bar::Empty,
    mode: Mode::Normal,
};

// Table 4.8-5 of 001, row by row, after the one for no curve. No heap: it is an array of fixed size.
const TABLE: [Row; ROWS] = [
    // no curve
    NO_CURVE,
    // a) A
    Row {
        showing: Some(Shown::Computed(Interval::A)),
        past: None,
        sufficient: None,
        bar: Bar::Empty,
        mode: Mode::Normal,
    },
    // b) Bf
    Row {
        showing: Some(Shown::Computed(Interval::Bf)),
        past: None,
        sufficient: None,
        bar: Bar::LightGrey,
        mode: Mode::PreIndication,
    },
    // c) Ab
    Row {
        showing: Some(Shown::Ab),
        past: None,
        sufficient: None,
        bar: Bar::Yellow,
        mode: Mode::Indication,
    },
    // c) B, before passing the Permitted curve
    Row {
        showing: Some(Shown::Computed(Interval::B)),
        past: Some(false),
        sufficient: None,
        bar: Bar::Yellow,
        mode: Mode::Indication,
    },
    // d) B, after passing the Permitted curve
    Row {
        showing: Some(Shown::Computed(Interval::B)),
        past: Some(true),
        sufficient: None,
        bar: Bar::Yellow,
        mode: Mode::Warning,
    },
    // e) C
    Row {
        showing: Some(Shown::Computed(Interval::C)),
        past: None,
        sufficient: None,
        bar: Bar::Yellow,
        mode: Mode::Warning,
    },
    // f) D, before passing the Conditional braking curve
    Row {
        showing: Some(Shown::Computed(Interval::D)),
        past: None,
        sufficient: Some(true),
        bar: Bar::Yellow,
        mode: Mode::Warning,
    },
    // g) D, after passing the Conditional braking curve
    Row {
        showing: Some(Shown::Computed(Interval::D)),
        past: None,
        sufficient: Some(false),
        bar: Bar::Yellow,
        mode: Mode::Intervention,
    },
    // h) E
    Row {
        showing: Some(Shown::Computed(Interval::E)),
        past: None,
        sufficient: None,
        bar: Bar::Yellow,
        mode: Mode::Intervention,
    },
    // i) F
    Row {
        showing: Some(Shown::Computed(Interval::F)),
        past: None,
        sufficient: None,
        bar: Bar::Yellow,
        mode: Mode::Intervention,
    },
];

fn is_met(condition: Option<bool>, holds: bool) -> bool
    ensures { result ≡ is_met condition holds }
{
    condition.is_none_or(|wanted| holds == wanted)
}

// Whether a row holds for what is shown, past permitted or not, drop sufficient or not.
fn holds_for(past: bool, sufficient: bool, showing: Option<Shown>, row: Row) -> bool
    ensures { result ≡ holds_for past sufficient showing row }
{
    (showing == row.showing) & is_met(row.past, past) & is_met(row.sufficient, sufficient)
}

// The table, which is the list of the definition.
pub fn table() -> [Row; ROWS]
    ensures { result ≡ rows }
{
    TABLE
}

// The first row that holds, and that for no curve where none does.
pub fn row_of(past: bool, sufficient: bool, showing: Option<Shown>) -> Row
    ensures { result ≡ row_of past sufficient showing }
{
    let rows = table();
    rows.iter()
        .find(|row| holds_for(past, sufficient, showing, **row))
        .copied()
        .unwrap_or(NO_CURVE)
}
