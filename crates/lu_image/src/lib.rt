//! What an update knows of two versions of a program: which of their entries belong together, and why an update may be
//! refused. `specs/Pairing` says which entries pair under some renames, `specs/RenameRefusal` which renames are refused, and
//! `specs/Correspondence` which types correspond.
#![tactic(auto)]

mod correspond;
mod error;
mod handler;
mod pairing;
mod refusal;
mod rename;

pub use correspond::corresponds;
pub use error::PairError;
pub use handler::{Handler, HandlerCall, HandlerPlan};
pub use pairing::{Dangling, Outline, Pairing};
pub use refusal::{Kept, Refusal, Why};
pub use rename::{Rename, Renames, Table};
