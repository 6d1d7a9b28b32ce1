//! Machine, services: objects come and go, messages leave, and a panic ends the call. Each is exactly its case of the
//! meaning; on want of memory all is as it was.
#![tactic(auto)]

pub mod outbox;
pub mod outgoing;
pub mod service;
pub mod space;
