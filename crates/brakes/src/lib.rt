// What brakes: the table of causes, the two brake checks, release, and what the table looks at.
// The types are declared in `rules`, so these are functions and not methods.
//
// No public function has a `requires`: each is defined at every value of its parameters.
#![tactic(auto)]

pub mod causes;
pub mod check;
pub mod hold;
pub mod release;
pub mod seeing;
