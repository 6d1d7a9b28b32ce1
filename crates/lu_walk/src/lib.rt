//! The needed objects of a process: layer of the update, over marks and the pointers in bytes. It takes the bytes and rows of
//! a process and two programs whose entries pair, and walks the needed objects, one a step. Its one contract is that of
//! `Walk::step`: over the store for which the process stands, the walk goes on as one over the store's needed objects, it is
//! done exactly where it has walked as many as there are, and then its list is theirs, in order.
#![tactic(auto)]

mod bytes;
mod objects;
mod rows;
mod walk;

pub use lu_base::Memory;
pub use lu_mark::WalkState;
pub use lu_scan::PairedPrograms;
pub use walk::Walk;
