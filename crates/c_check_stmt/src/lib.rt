//! The typing of the statements of a function of the C subset: its typed statements, the types of its locals and what
//! it allocates, or the rules that it breaks.
#![tactic(auto)]

pub mod bodies;
pub mod function;
mod making;
mod rights;
mod simple;
pub mod state;
mod statements;
mod variables;
