//! The proof that what is compiled of a program means the program. Layer: the proof of the compiler. Takes: a valid program with
//! its filters, and the machine's program that the compiler makes of them. Gives, as laws: this code starts as the process of
//! the initial store, and a call on it ends as the call of the text does. Its contract is that of `laws`.
#![tactic(auto)]

pub mod laws;
