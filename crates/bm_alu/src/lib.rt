//! Machine, words: takes words of 64 bits and an operation, gives the word of the result or a trap. `combine` and
//! `transform` are exactly the definitions of `specs/Words`.
#![tactic(auto)]

mod binary;
mod unary;

pub use binary::{Binary, combine};
pub use unary::{Unary, int_kind, normalize, transform};
