//! The proof that the code of statements and calls means the text. Layer: the proof of the compiler. Takes: a valid program, and
//! machine code that has its functions, sites and globals. Gives, as a law: a call on the machine, begun in the process of a
//! store, ends as the call of the text does. Its contract is that of `laws`.
#![tactic(auto)]

pub mod laws;
