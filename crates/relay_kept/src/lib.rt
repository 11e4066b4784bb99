// Laws of well-formed relays, in proofs/. This crate has no code.
#![tactic(auto)]
