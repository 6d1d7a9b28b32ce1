//! The code of whole programs. Layer: the compiler. Takes: a valid program and its filters. Gives: `Code`, the machine's
//! program of both, which keeps the program. Its one contract: `compile` answers `Ok` with exactly the machine's program of
//! `specs/Compiled`, `TooLong` exactly at the first function whose weight passes the greatest, and else `Memory`.
#![tactic(auto)]

pub mod bytes;
pub mod code;
pub mod compiler;
pub mod error;
mod functions;
mod globals;
