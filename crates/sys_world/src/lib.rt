//! Kernel, the system's definitions: layer of the servers with their inboxes and updates, over the meaning of programs and
//! of updates. It takes servers, updates and events and gives, in `specs/`, the world after each event, the notes that it
//! tells, the transcript of a run, and the replay of a server's history. Its laws are contracts of `laws`.
#![tactic(auto)]

mod happened;
pub mod laws;
mod outcome;

pub use happened::Happened;
pub use outcome::Outcome;
pub use sched_file::Event;
