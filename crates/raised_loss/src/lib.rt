// Document 02, request 6: the default with a larger loss set beside the one with a smaller, in specs/ and proofs/: this crate has no code.
#![tactic(auto)]
