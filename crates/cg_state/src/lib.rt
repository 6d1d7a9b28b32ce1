//! What a process stands for. Layer: the proof of the compiler. Takes: a store of a program. Gives: the one process that stands
//! for it, with its rows, bytes and words as functions of the store, and what reading, assigning, allocating and freeing
//! make of that process. Definitions and lemmas alone, over the meanings of the language and of the machine.
#![tactic(auto)]
