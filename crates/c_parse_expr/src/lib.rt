//! Reads types and expressions from tokens.
#![tactic(auto)]

pub mod error;
pub mod expr;
pub mod tokens;
pub mod types;
pub mod whole;
