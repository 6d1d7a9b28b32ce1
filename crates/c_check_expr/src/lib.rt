//! The checker's room of expressions and declarators, above that of scopes. It takes a scope and the tree of an expression,
//! a declarator or a parameter list, and gives exactly what it denotes, a typed tree or the number of a type, or exactly the
//! rules that it breaks.
#![tactic(auto)]

pub mod calls;
pub mod denoted;
pub mod objects;
pub mod operators;
pub mod params;
pub mod places;
pub mod signatures;
pub mod typing;
pub mod uses;
pub mod values;
