//! Machine, meaning: takes the code of a program, gives what an instruction does and how a run ends (`specs/`), with laws
//! of runs (`proofs/`). It has next to no code of its own.
#![tactic(auto)]

pub mod code;
pub mod laws;
pub mod operation;
pub mod stop;
