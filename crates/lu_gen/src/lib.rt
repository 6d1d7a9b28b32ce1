//! An input for the program, made of a number: a table of counts that is updated in the middle of a thousand messages.
#![tactic(auto)]

mod files;
mod schedule;
mod texts;

pub use files::generate;
pub use lu_base::Memory;
