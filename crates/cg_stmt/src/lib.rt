//! The code of functions, and which functions are short enough to be compiled. Layer: the compiler. Takes: a program, the
//! addresses of its globals, and filters. Gives: a function of the machine for each function and each filter. Its one
//! contract: where there is memory, it is exactly the one of `specs/Functions`, whose parts are `StatementCode` and, for
//! the targets of jumps, `StatementSizes`; and a function is too long where its weight of the definition passes the
//! greatest.
#![tactic(auto)]

mod calls;
pub mod functions;
mod sizes;
mod statements;
mod weight;

pub use weight::{GREATEST_WEIGHT, is_too_long};
