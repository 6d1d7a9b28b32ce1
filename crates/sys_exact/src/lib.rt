//! What the system means, in the terms of the text. Layer: the kernel. Takes: the contract of `System::event`, which speaks of
//! processes, and what a server's process means. Gives, as laws: processes that stand for a world stand for the next world after
//! an event of no update. Its contract is that of `laws`.
#![tactic(auto)]

pub mod laws;
