//! Laws of the source model: of the layer of programs, over the definitions of `src_meaning` and for the proofs above.
//! Each that is a law by itself is the contract of a function of `laws`; its lemmas stand in `proofs/`: sizes of types kind by
//! kind, induction on the types of a table, paths with one more step, values under more objects, parts of typed values.
#![tactic(auto)]

pub mod laws;
