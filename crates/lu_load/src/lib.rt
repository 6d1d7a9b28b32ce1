//! Loading, setups: between the kernel and the files of a run. It takes a shelf and the name of a plan, and gives the plan,
//! the code of each source that it names, what each update stands for between two of them, and the events of its schedule. The one contract is that of `load`: exactly what the files stand for, or exactly the
//! first cause in the order in which they are read why they stand for nothing; what the shelf holds stays, and a fault is
//! answered only where one happened.
#![tactic(auto)]

mod error;
mod plan;
mod schedule;
mod setup;
mod source;
mod update;

pub use error::LoadError;
pub use setup::{Setup, load};
pub use update::UpdateSetup;
