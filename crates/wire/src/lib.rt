// Commands as bytes, as 01 lays them out: the code table, refusals 1 to 4, the operand part, the next command of a
// stream, numbers high byte first, equal and copied bytes, and digits in ASCII.
//
// No public function has a `requires`: each is defined at every input.
#![tactic(auto)]

mod bytes;
mod codes;
mod form;
mod numbers;
mod split;
mod text;

pub use bytes::{copy_whole, same};
pub use codes::{CODES, COMMANDS, LONGEST, Row, SHORTEST, length_of};
pub use form::{FormError, REPORT_LENGTH, form_of, operands};
pub use numbers::{be16, be32, byte_at, high, high_pair, low, low_pair, signed8, signed16};
pub use split::{RestError, next_command};
pub use text::digit;
