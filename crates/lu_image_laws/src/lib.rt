//! Laws of what an update means: layer of the update's definitions, over those of `lu_image_store` and for the proofs above.
//! Each that is a law by itself is the contract of a function of `laws`; its lemmas stand in `proofs/`.
#![tactic(auto)]

pub mod laws;
