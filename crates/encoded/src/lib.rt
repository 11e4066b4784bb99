// Laws of encodings of lists and jobs in lent words and floats, in proofs/. This crate has no code.
#![tactic(auto)]
