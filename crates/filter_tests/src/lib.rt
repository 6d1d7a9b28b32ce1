//! Tests of filters over programs that are read from their texts: a crate with tests is proved twice, so these stand here.
//! It has no code.
#![tactic(auto)]

#[cfg(test)]
mod filters;
