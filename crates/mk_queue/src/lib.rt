//! The inbox of a server, and which of its messages are held back while an update of it is active.
#![tactic(auto)]

mod front;
mod hold;
mod inbox;

pub use hold::Hold;
pub use inbox::Inbox;
pub use lu_base::Memory;
