//! Words that the contracts of several crates share. It has no code: see `specs/` and `proofs/`.
#![tactic(auto)]
