//! The tokens of a text.
#![tactic(auto)]

mod error;
mod mark;
mod number;
mod piece;
mod position;
mod quoted;
mod slash;
mod text;
mod word;

pub use error::LexError;
pub use text::lex;
