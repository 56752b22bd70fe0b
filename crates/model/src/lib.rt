// The reference model: definitions in `specs/`, theorems in `proofs/`. This crate has no code.
#![tactic(auto)]
