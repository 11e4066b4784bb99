// What a user would hope for and the rulebook implies, stated in specs/ and proved in proofs/ over any symmetric fit distance, a search over any fit one. This crate has no code.
#![tactic(auto)]
