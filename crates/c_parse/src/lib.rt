//! Reads a program's declarations from tokens.
#![tactic(auto)]

mod decl;
mod init;
mod object;
mod param;
mod parts;
pub mod program;
mod stmt;

pub use c_parse_expr::error::ParseError;
pub use c_parse_expr::whole::parse_expr;
pub use program::parse;
