//! Tests of the checker on whole texts and on expressions, from all of its crates: a crate with tests is proved twice, so
//! these stand here. It has no code.
#![tactic(auto)]

#[cfg(test)]
mod checks;
#[cfg(test)]
mod filters;
#[cfg(test)]
mod judgements;
