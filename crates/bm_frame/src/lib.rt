//! Machine, one frame: the instructions that concern one function under way and memory alone. Each is exactly its case of
//! the meaning, or its trap with all as it was.
#![tactic(auto)]

pub mod frame;
pub mod local;
pub mod locals;
pub mod memory;
pub mod pointer;
pub mod stack;
pub mod writing;
