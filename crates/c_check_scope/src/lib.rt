//! The lowest room of the checker. It takes types, syntax trees and names, and gives what the parts of a text are judged
//! with: what operators take, which types convert, fields by name, what each name means where a part stands, and the rules
//! with their codes. Each call is exactly its definition.
#![tactic(auto)]

pub mod checked;
pub mod conversions;
pub mod error;
pub mod integers;
pub mod kinds;
pub mod members;
pub mod names;
pub mod numbers;
pub mod operand;
pub mod operation;
pub mod rule;
pub mod rules;
pub mod scope;
pub mod types;
