//! Pairs the entries of two programs by their names and by renames.
#![tactic(auto)]

mod names;
mod open;
mod outline;
mod paired;
mod parts;
mod renaming;
mod sites;
mod texts;

pub use lu_image::PairError;
pub use paired::pair;
