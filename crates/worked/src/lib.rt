// Examples worked from the definitions, document 01's as one fact, in specs/; and one of a theorem, in proofs/. This crate has no code.
#![tactic(auto)]
