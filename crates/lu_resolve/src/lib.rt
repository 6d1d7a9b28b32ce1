//! Loading, names of updates: between the loader and the pairing of programs. It takes an update of a plan with the valid
//! program that it replaces and the valid one that it brings, and gives what belongs together in the two, with the update's
//! rule on pointers to dead objects, its handlers and its last call. The one contract is that of `resolve`: exactly what the
//! update's names stand for, or exactly the first of them that stands for nothing.
#![tactic(auto)]

mod error;
mod handler;
mod names;
mod rename;
mod update;

pub use error::ResolveError;
pub use update::resolve;
