//! Declarations without statements, in a scope: the fields of structs and unions, and globals with their initialisers;
//! or the rules that they break.
#![tactic(auto)]

pub mod constants;
pub mod globals;
pub mod initialisers;
pub mod layout;
pub mod objects;
pub mod records;
pub mod scalars;
pub mod shaped;
