// What the request asks of the relay under every order of moves (its demand 3), stated in specs/ and proved in proofs/. This crate has no code.
#![tactic(auto)]
