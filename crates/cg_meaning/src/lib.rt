//! What servers mean. Layer: the proof of the compiler. Takes: the contracts of `Server`, which speak of its process by the
//! machine's meaning of the code. Gives, as laws: the same in the terms of the text, where a server stands for a store of its
//! program. Its contract is that of `laws`.
#![tactic(auto)]

pub mod laws;
