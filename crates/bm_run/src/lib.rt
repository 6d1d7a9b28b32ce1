//! Machine, calls: the functions that wait, jumps, calls and returns, and ticks. Each is exactly its case of the meaning.
#![tactic(auto)]

pub mod callers;
pub mod calls;
pub mod plain;
pub mod transfer;
