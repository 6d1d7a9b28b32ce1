//! Programs of the C subset as typed trees, and the values and stores that they run on.
//! Layer: programs. It takes the names and bytes of `lu_base` and the table of types of `c_types`. It gives the trees of
//! `program`, `stmt` and `expr`, the values of `value`, and copies. Its contract: a copy equals what it was made from.
#![tactic(auto)]

mod copy;
mod copy_expr;
mod copy_stmt;
pub mod expr;
pub mod program;
pub mod signatures;
pub mod stmt;
pub mod value;
