//! Tokens and trees of the C subset, and the bytes and tokens that spell them.
#![tactic(auto)]

pub mod decl;
pub mod expr;
pub mod fault;
pub mod spelling;
pub mod stmt;
pub mod token;
pub mod types;
