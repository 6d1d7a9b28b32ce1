//! What is told of servers, in the terms of the text. Layer: the kernel. Takes: a server that stands for a store. Gives, as a
//! law: the dump of its process is that of the store. Its contract is that of `laws`.
#![tactic(auto)]

pub mod laws;
