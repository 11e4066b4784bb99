// The request's demand 3 of the calls themselves: what the contracts of open, move_job and close promise together. This crate has no code.
#![tactic(auto)]
