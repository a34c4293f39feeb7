// Refusals 1 to 4 of 01, in their order, and the operands of a command that passes them.
ghost use Rattle.std.specs.Prelude.{◌≡◌};
ghost use Rattle.wire.specs.Form.{form_of, refusal_of, refusal_to, operand_part};

use crate::codes::length_of;

// The length of the report area, in bytes.
pub const REPORT_LENGTH: usize = 19;

// The refusal that a command gets by its form.
#[derive(Clone, Copy, PartialEq, Eq)]
pub enum FormError {
    // 1: the report area isn't of the report's length.
    WrongArea,
    // 2: the command has no bytes.
    NoBytes,
    // 3: the first byte is no code.
    NoCode,
    // 4: the length isn't the code's.
    WrongLength,
}

// What a command is refused for where the report area has `area` bytes, and `Ok` where for none of the four.
pub fn form_of(command: &[u8], area: usize) -> Result<(), FormError>
    ensures outcome { result ≡ form_of command.now area }
    ensures refusal { refusal_of result ≡ refusal_to command.now area }
{
    if area != REPORT_LENGTH {
        return Err(FormError::WrongArea);
    }
    let code = *command.first().ok_or(FormError::NoBytes)?;
    let length = length_of(code).ok_or(FormError::NoCode)?;
    if command.len() == length {
        Ok(())
    } else {
        Err(FormError::WrongLength)
    }
}

// The part of the command after its code byte and its four-byte number, and an empty part at refusals 1 to 4.
pub fn operands(command: &[u8], area: usize) -> &[u8]
    ensures { result.now ≡ operand_part command.now area }
{
    match form_of(command, area) {
        Ok(()) => &command[5..],
        Err(_) => &command[..0],
    }
}
