//! Tests of memory in pages, beside the plain form. A crate with tests is proved twice, so they stand here. It has no code.
#![tactic(auto)]

#[cfg(test)]
mod pages;
