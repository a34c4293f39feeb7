// ET boards (02, F-7; 001, 4.6.8): one record, from its board to its end, and the eight places of records.
//
// No public function has a `requires`: each is defined at every value of its parameters.
#![tactic(auto)]

mod held;
mod letters;
mod life;

pub use held::{
    all_curves, all_records_held, end_record, give_record, holds_record, keeps_record,
    move_records, no_records, note_records, pass_signal,
};
pub use life::{as_curve, free_record, moved_record, noted_record, passed_record};
