//! The door of the checker, and its highest room. It takes the tree of a text, or a program and the tree of an expression;
//! `check` gives the program that the text denotes, or the first declaration that breaks a rule with the least code of the
//! rules that it breaks; `check_expr` gives the typed expression in the scope of all that the program declares, or the least
//! code of the rules that it breaks.
#![tactic(auto)]

pub mod check;
pub mod checking;
mod declaration;
pub mod definitions;
pub mod functions;
pub mod headings;
pub mod meanings;
pub mod names;
pub mod objects;
pub mod program_scope;
pub mod standing;
pub mod tags;
pub mod verdict;
