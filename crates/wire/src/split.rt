// The next command of a stream.
ghost use Rattle.std.specs.Prelude.{◌≡◌};
ghost use Rattle.wire.specs.Split.{next_command, next_refusal, rest_refusal};

use crate::codes::length_of;

// Why a rest with bytes has no next command.
#[derive(Clone, Copy, PartialEq, Eq)]
pub enum RestError {
    // The next byte is no code: refusal 3.
    NoCode,
    // Fewer bytes are left than the code's length: refusal 4.
    Short,
}

// How many bytes the next command takes, and none where no bytes are left.
pub fn next_command(rest: &[u8]) -> Result<Option<usize>, RestError>
    ensures outcome { result ≡ next_command rest.now }
    ensures refusal { next_refusal result ≡ rest_refusal rest.now }
{
    let Some(&code) = rest.first() else {
        return Ok(None);
    };
    let length = length_of(code).ok_or(RestError::NoCode)?;
    if rest.len() < length {
        Err(RestError::Short)
    } else {
        Ok(Some(length))
    }
}
