//! Parameters and statements.

use crate::expr::Expr;
use crate::types::TypeName;
use lu_base::Name;
use sqlite_items::{Boxed, Items};

/// A parameter, or what a local is declared by. An empty list of parameters is written `void`.
#[derive(Drop)]
pub enum Param {
    /// `type name`
    Object(TypeName, Name),
    /// `type ( * name ) ( params )`
    Function(TypeName, Name, Items<Param>),
}

/// What stands right of `=`, or is returned.
#[derive(Drop)]
pub enum RightSide {
    /// `callee ( arguments )`
    Call(Boxed<Expr>, Items<Expr>),
    Value(Boxed<Expr>),
}

/// `place = value` without a semicolon, in a `for`.
#[derive(Drop)]
pub struct Simple {
    pub place: Boxed<Expr>,
    pub value: Boxed<Expr>,
}

/// A statement.
#[derive(Drop)]
pub enum Stmt {
    Block(Items<Stmt>),
    Empty,
    Local(Param, Option<RightSide>),
    Assign(Boxed<Expr>, RightSide),
    /// `callee ( arguments ) ;`
    Call(Boxed<Expr>, Items<Expr>),
    If(Boxed<Expr>, Boxed<Stmt>),
    IfElse(Boxed<Expr>, Boxed<Stmt>, Boxed<Stmt>),
    While(Boxed<Expr>, Boxed<Stmt>),
    For(Option<Simple>, Option<Boxed<Expr>>, Option<Simple>, Boxed<Stmt>),
    Break,
    Continue,
    Return(Option<RightSide>),
}
