//! Declarations.

use crate::expr::Expr;
use crate::stmt::{Param, Stmt};
use crate::token::Number;
use crate::types::{TagKind, TypeName};
use lu_base::{Bytes8, Name};
use sqlite_items::{Boxed, Items};

/// An object's type and name, with a length where it is an array.
#[derive(Drop)]
pub enum Named {
    /// `type name` or `type name [ length ]`
    Object(TypeName, Name, Option<Number>),
    /// `type ( * name ) ( params )` or `type ( * name [ length ] ) ( params )`
    Function(TypeName, Name, Option<Number>, Items<Param>),
}

/// What a global is initialised with.
#[derive(Drop)]
pub enum Init {
    Value(Boxed<Expr>),
    Text(Bytes8),
    /// `{ init , init .. }`; the truth value tells whether a comma stands before the closing brace.
    List(Items<Init>, bool),
}

/// A declaration.
#[derive(Drop)]
pub enum Decl {
    /// `struct name { fields } ;` or the same with `union`
    Record(TagKind, Name, Items<Named>),
    Global(Named, Option<Boxed<Init>>),
    Prototype(TypeName, Name, Items<Param>),
    Function(TypeName, Name, Items<Param>, Items<Stmt>),
}

/// A text's declarations in order.
pub type Ast = Items<Decl>;
