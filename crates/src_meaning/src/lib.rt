//! What programs of the C subset mean, and which are valid.
//! Layer: programs. It takes the trees and stores of `src_tree`. It gives definitions and their laws, and of code only the
//! types that they share with the code which decides them. The meaning: `Integers`, `Pointers` and `Operators`, then
//! `Expression` and `Assignment`, then `Call` and `Delivery`; `Objects` has addresses and the heap, `Store` says which
//! stores are a program's, `ValueBytes` lays values out as bytes, and `Weight` counts a function. Validity: `Valid`, with
//! `ValidTypes` and the files between. It has no function, and so no contract.
#![tactic(auto)]

pub mod constant;
pub mod validity;
