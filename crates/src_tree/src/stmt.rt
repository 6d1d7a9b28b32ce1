// Statements and calls.

use crate::expr::{TypedExpr, TypedPlace};
use c_types::TyId;
use sqlite_items::{Boxed, Items};

/// What is called.
#[derive(Drop)]
pub enum Callee {
    /// A function by its name.
    Function(u32),
    /// What a function pointer points to.
    Pointer(TypedExpr),
    /// `send(dest)`, with `dest` an int; an int.
    Send,
    /// `malloc(sizeof(T))` at the site of this number, without arguments here.
    Malloc(u32),
    /// `calloc(e, sizeof(T))` at the site of this number, with `e` as a long long alone.
    Calloc(u32),
    /// `free(p)`
    Free,
    /// `panic(e)`, with `e` an int.
    Panic,
}

/// A call with its arguments, each of its parameter's type.
#[derive(Drop)]
pub struct Call {
    pub callee: Callee,
    pub args: Items<TypedExpr>,
}

/// A right side, a local's initialiser or a value to return.
#[derive(Drop)]
pub enum Rhs {
    Value(TypedExpr),
    /// The result of a call, converted to the type of this number.
    Call(Call, TyId),
}

/// A statement.
#[derive(Drop)]
pub enum TypedStmt {
    /// `{ .. }`; a function's own block isn't one.
    Block(Items<TypedStmt>),
    /// `;`
    Empty,
    /// The declaration of a local, by its number. Without an initialiser the local becomes zero.
    Declare(u32, Option<Rhs>),
    /// An assignment to a parameter or a local.
    SetLocal(u32, Rhs),
    /// An assignment to a place. The right side is evaluated first.
    Assign(TypedPlace, Rhs),
    /// A call whose result, if any, is dropped.
    Call(Call),
    /// The statement of the `else` is the last list's only one; without an `else` that list is empty.
    If(TypedExpr, Boxed<TypedStmt>, Items<TypedStmt>),
    While(TypedExpr, Boxed<TypedStmt>),
    /// The first list has the assignment before the loop and the second the one after each turn, if there is one.
    /// A condition that isn't there is true.
    For(Items<TypedStmt>, Option<TypedExpr>, Items<TypedStmt>, Boxed<TypedStmt>),
    Break,
    Continue,
    Return(Option<Rhs>),
}
