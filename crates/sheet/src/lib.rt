// The trip sheet (02, F-5), for the code to be proved against: its types stand here, its rules in specs/, and what is promised of every
// sheet in specs/ too, proved in proofs/. Only the derived comparison runs.
#![tactic(auto)]

// What a line says of the three by which the next is compared with it.
#[derive(Clone, Copy, PartialEq, Eq)]
pub struct Line {
    pub order: u8,
    pub permitted: u16,
    pub state: u8,
}

// Where a sheet stands: its last line, if there is one, the page, and how many lines are on it.
#[derive(Clone, Copy)]
pub struct Sheet {
    pub printed: Option<Line>,
    pub page: u16,
    pub line: u8,
}
