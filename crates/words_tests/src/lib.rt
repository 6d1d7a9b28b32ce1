//! Tests of files, output and names, and of the lines of a transcript. A crate with tests is proved twice, so they stand
//! here. It has no code.
#![tactic(auto)]

#[cfg(test)]
mod files;
#[cfg(test)]
mod lines;
