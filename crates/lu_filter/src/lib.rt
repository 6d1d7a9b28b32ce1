//! State filters of updates: between the loader and the checker's expressions. It takes a valid program and the text of a
//! filter, and gives the typed integer expression that the text denotes in the scope of all that the program declares.
//! The one contract is that of `read_filter`: exactly that expression, or exactly why there is none.
#![tactic(auto)]

mod error;
mod filter;

pub use error::FilterError;
pub use filter::read_filter;
