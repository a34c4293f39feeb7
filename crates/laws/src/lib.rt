// Laws of tests and lists over any element type, for the proofs of every crate. It has no code.
#![tactic(auto)]
