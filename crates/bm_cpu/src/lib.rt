//! The machine: takes code and memory, gives a process that runs calls by ticks. `Machine::run` is exactly the run of the
//! meaning in bm_code; its other calls change what they name and nothing else.
#![tactic(auto)]

pub mod machine;
mod objects;

pub use bm_code::code::{MachineCode, MachineFunction, MachineGlobal, MachineSite};
pub use bm_code::stop::Stop;
pub use machine::Machine;
