//! Stores of a program and the messages in them. Layer: the proof of the compiler. Takes: a valid program. Gives, as laws: its
//! initial store is a store of the program, and so is a store in which a message was put into `m_in` or `m_out`; and what a
//! message is in bytes, there and in the process that stands for the store. Its contract is that of `laws`.
#![tactic(auto)]

pub mod laws;
