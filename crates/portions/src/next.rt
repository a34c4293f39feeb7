// The portions of a stream: the bytes that the unit is given, a call each.
ghost use Rattle.std.specs.Prelude.{◌≡◌};
ghost use Rattle.portions.specs.Portions.{next_portion, portion_length, is_last};

use wire::{RestError, next_command};

// What the unit is given by one call.
#[derive(Clone, Copy)]
pub enum Portion {
    // A command of so many bytes.
    Command(usize),
    // So many bytes that are refused by 3 or 4: the stream ends with them.
    Last(usize),
}

impl Portion {
    pub fn length(self) -> usize
        ensures { result ≡ portion_length self }
    {
        match self {
            Portion::Command(n) => n,
            Portion::Last(n) => n,
        }
    }

    // The stream ends with it.
    pub fn is_last(self) -> bool
        ensures { result ≡ is_last self }
    {
        match self {
            Portion::Command(_) => false,
            Portion::Last(_) => true,
        }
    }
}

// What of the bytes at hand is given to the unit next: nothing where there are none, or a command that is not whole yet. `all` says
// that no bytes come after them.
pub fn next_portion(rest: &[u8], all: bool) -> Option<Portion>
    ensures { result ≡ next_portion all rest.now }
{
    match next_command(rest) {
        Ok(None) => None,
        Err(RestError::NoCode) => Some(Portion::Last(1)),
        Err(RestError::Short) => {
            if all {
                Some(Portion::Last(rest.len()))
            } else {
                None
            }
        }
        Ok(Some(n)) => Some(Portion::Command(n)),
    }
}
