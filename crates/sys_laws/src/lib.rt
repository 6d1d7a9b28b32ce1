//! Kernel, the laws of the system's definitions: layer of the servers with their inboxes and updates, over `sys_world`. It
//! takes any servers, updates and events and gives what holds of each server in every world that they reach: a dead server has
//! no message waiting, the messages of a source keep their order, and a server is where its history leads. Each law is the
//! contract of a function of `laws`.
#![tactic(auto)]

pub mod laws;
