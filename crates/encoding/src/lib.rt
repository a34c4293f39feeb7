// 01's numbers of answers, the codes and states of bytes, and the operands of the commands with their ranges.
//
// No public function has a `requires`: each is defined at every value of its parameters.
#![tactic(auto)]

pub mod fields;
pub mod numbers;
