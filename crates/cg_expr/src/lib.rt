//! The code of expressions and places. Layer: the compiler. Takes: the trees of a program's expressions and places,
//! its types, and the addresses of its globals. Gives: the machine's instructions, behind those that stand already.
//! Its one contract: where there is memory, what is put behind the code is exactly `expression_code` or `place_code`
//! of the tree at the place where the code ended. `specs/` has these definitions; jumps go to absolute places that
//! the sizes of the parts give, so nothing is written twice.
#![tactic(auto)]

pub mod emit;
mod operators;
mod places;
pub mod scalars;
pub mod sizes;
pub mod target;
mod words;
