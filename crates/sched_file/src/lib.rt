//! Recorded schedules: what clients send, how far servers run, and which updates are asked for, line by line.
#![tactic(auto)]

mod bytes;
mod error;
mod event;
mod line;
mod number;
mod schedule;
mod word;

pub use error::SchedError;
pub use event::Event;
pub use lu_base::{Memory, Message};
pub use plan_file::Plan;
pub use schedule::read_schedule;
