// Bar and mode of what a report shows, as the rows of table 4.8-5 of 001, "Bar colours at deceleration supervision" (01,
// "Report"; 02, F-4). Its types are here too.
//
// No public function has a `requires`: each is defined at every value of its parameters.
#![tactic(auto)]

mod numbers;
mod rows;

use curve::Shown;
pub use numbers::showing_number;
pub use rows::{ROWS, row_of, table};

// The bars: the table's column "Colour of the MAX SPEED BAR".
#[derive(Clone, Copy)]
pub enum Bar {
    Empty,
    LightGrey,
    Yellow,
}

// The modes: the table's column "Mode".
#[derive(Clone, Copy)]
pub enum Mode {
    Normal,
    PreIndication,
    Indication,
    Warning,
    Intervention,
}

// A row: what it holds for, and its bar and mode. `showing` is the interval in which a curve is shown; None: no
// curve. `past` is whether the permitted boundary is reached, `sufficient` whether the drop is; None: either.
#[derive(Clone, Copy)]
pub struct Row {
    pub showing: Option<Shown>,
    pub past: Option<bool>,
    pub sufficient: Option<bool>,
    pub bar: Bar,
    pub mode: Mode,
}
