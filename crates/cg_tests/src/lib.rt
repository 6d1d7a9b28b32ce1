//! Tests of the compiler on whole texts, which the real machine runs: a crate with tests is proved twice, so they stand here.
//! It has no code.
#![tactic(auto)]

#[cfg(test)]
mod driver;
#[cfg(test)]
mod limits;
#[cfg(test)]
mod listings;
#[cfg(test)]
mod servers;
