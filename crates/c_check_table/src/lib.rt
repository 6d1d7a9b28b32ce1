//! The checker's room of the table of types, above that of declarations without statements. It takes the tree of a text, and
//! gives exactly the table of the types that the text asks for, and whether a table has all that is looked up in it. No rule
//! is judged here: what breaks one adds nothing, and a struct or union that breaks one has a field that no text can name.
#![tactic(auto)]

pub mod bodies;
pub mod draft;
pub mod known;
pub mod make;
pub mod objects;
pub mod outline;
pub mod predeclared;
pub mod records;
pub mod scoping;
pub mod signatures;
pub mod start;
pub mod tally;
pub mod texts;
pub mod types;
