// Laws of well-formed descents, in proofs/: what is written is read back, and begin and an iteration leave a well-formed state. This crate has no code.
#![tactic(auto)]
