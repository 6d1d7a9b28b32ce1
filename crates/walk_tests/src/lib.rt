//! Tests of walks over the objects of programs that the real machine ran: a crate with tests is proved twice, so they stand
//! here. It has no code.
#![tactic(auto)]

#[cfg(test)]
mod driver;
#[cfg(test)]
mod walks;
