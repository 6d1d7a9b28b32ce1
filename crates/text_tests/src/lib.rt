//! Tests of the types of C and of reading texts, from all of their crates: a crate with tests is proved twice, so these stand
//! here. It has no code.
#![tactic(auto)]

#[cfg(test)]
mod layouts;
#[cfg(test)]
mod lexemes;
#[cfg(test)]
mod programs;
