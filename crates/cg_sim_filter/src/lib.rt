//! What filters mean. Layer: the proof of the compiler. Takes: a server that stands for a store. Gives, as a law: what a filter
//! answers is what its expression gives in that store, for which the server stands as before. Its contract is that of `laws`.
#![tactic(auto)]

pub mod laws;
