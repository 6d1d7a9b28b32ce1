//! Update plans: what servers there are, which updates they get, and the schedule's file, read from TOML.
#![tactic(auto)]

mod error;
mod form;
mod handler;
mod key;
mod lookup;
mod plan;
mod read;
mod rename;
mod server;
mod settings;
mod update;

pub use error::PlanError;
pub use key::{Key, LimitedList};
pub use lu_base::{Memory, Name, Sequence};
pub use plan::{Dangling, Handler, Plan, Pointers, Rename, Server, Update};
pub use read::read_plan;
