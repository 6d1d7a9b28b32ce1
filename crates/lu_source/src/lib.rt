//! Loading, sources: between the loader and the tokens, the grammar and the checker. It takes a shelf and the name of a file,
//! and gives the valid program that the file's text denotes. The one contract is that of `read_source`: exactly that program,
//! or exactly the first cause why there is none; what the shelf holds stays, and a fault is answered only where one happened.
#![tactic(auto)]

mod error;
mod source;

pub use error::SourceError;
pub use source::read_source;
