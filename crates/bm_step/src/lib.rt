//! Machine, the loop: takes a process in memory and ticks, gives the end of the run. `run` is exactly the meaning's run.
#![tactic(auto)]

pub mod entry;
pub mod run;
pub mod step;
