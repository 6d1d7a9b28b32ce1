//! Kernel, servers at work: layer of the servers with their processes, over the mail between servers. It takes the servers'
//! code and events, and gives the system after each event: its processes, inboxes and histories, and what the event tells.
//! Its contract: each event of no update makes exactly what the definition says of the runs of the machine's code, of the mail
//! and of what is told, where memory lasts.
#![tactic(auto)]

mod events;
mod kernel;
mod look;
mod runner;
mod system;

pub use look::{Answer, Blind, Look};
pub use lu_base::Memory;
pub use runner::{Runner, Running};
pub use sys_world::{Event, Happened};
pub use system::{ServerCode, System};
