//! What temporaries mean. Layer: the proof of the compiler. Takes: a server that stands for a store. Gives, as laws: the server
//! with a temporary stands for the store with that object behind the others, and without one for the store in which it is dead.
//! Its contract is that of `laws`.
#![tactic(auto)]

pub mod laws;
