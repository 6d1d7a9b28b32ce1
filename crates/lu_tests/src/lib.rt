//! Tests of crates whose proofs are long: a crate with tests is proved twice, so these stand here. It has no code.
#![tactic(auto)]

#[cfg(test)]
mod pairings;
#[cfg(test)]
mod programs;
