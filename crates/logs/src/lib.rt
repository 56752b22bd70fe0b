// Whole logs, and two of them in one. No code: definitions in `specs/`, theorems in `proofs/`.
#![tactic(auto)]
