//! Programs of the C subset: whether one is valid, the constants in it and the store that it starts with.
//! Layer: programs. It takes the trees of `src_tree` and the definitions of `src_meaning`, and gives both rooms' public
//! types under its own name. Its contract: each answer is the one that the definition gives.
#![tactic(auto)]

pub mod constant;
mod initial;
mod integers;
mod valid;
mod valid_depth;
mod valid_expr;
mod valid_fits;
mod valid_init;
mod valid_names;
mod valid_numbering;
mod valid_stmt;
mod valid_table;
mod valid_types;

pub use initial::initial_store;
pub use src_tree::expr::{
    BinaryOperator, ExprKind, LogicalOperator, PlaceKind, TypedExpr, TypedPlace, UnaryOperator,
};
pub use src_tree::program::{Function, Global, Init, Program, Site};
pub use src_tree::stmt::{Call, Callee, Rhs, TypedStmt};
pub use src_tree::value::{Object, ObjectKind, Store, Value};
pub use valid::{Validity, is_valid_expression, valid_where_distinct};
pub use valid_table::has_types;
