//! Tests of the machine's crates: tables of words and bytes, and programs by hand. A crate with tests is proved twice, so
//! they stand here. It has no code.
#![tactic(auto)]

#[cfg(test)]
mod instructions;
#[cfg(test)]
mod memory;
#[cfg(test)]
mod objects;
#[cfg(test)]
mod programs;
#[cfg(test)]
mod services;
#[cfg(test)]
mod words;
