// What playing a merged log gives. No code: statements in `specs/`, proofs in `proofs/`.
#![tactic(auto)]
