//! The proof that the code of expressions and places means the text. Layer: the proof of the compiler. Takes: a valid program and a
//! function of its code, in a process that stands for a store. Gives, as laws: from the start of an expression's code the
//! machine comes to its end with the word of the value, or traps as the text does. Its contract is that of `laws`.
#![tactic(auto)]

pub mod laws;
