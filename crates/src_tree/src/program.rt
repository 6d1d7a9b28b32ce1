// Programs.

use crate::expr::TypedExpr;
use crate::stmt::TypedStmt;
use c_types::{TyId, TypeTable};
use lu_base::{Bytes8, Name};
use sqlite_items::Items;

/// A global's initialiser.
#[derive(Drop)]
pub enum Init {
    /// All zero, with the first member of each union active.
    Zero,
    One(TypedExpr),
    /// The bytes of a char array; the rest is zero.
    Text(Bytes8),
    /// The first elements of an array or fields of a struct; the rest is zero.
    List(Items<Init>),
}

/// A global. The first two are `m_in` and `m_out`.
#[derive(Drop)]
pub struct Global {
    /// The number of its name in the program's names.
    pub name: u32,
    pub ty: TyId,
    pub init: Init,
}

/// A function.
#[derive(Drop)]
pub struct Function {
    /// The number of its name in the program's names.
    pub name: u32,
    pub params: Items<TyId>,
    /// The result's type; none for `void`.
    pub ret: Option<TyId>,
    /// The types of the locals, without the parameters, in the order of their declarations.
    pub locals: Items<TyId>,
    pub body: Items<TypedStmt>,
}

/// A place of the text that allocates.
#[derive(Clone, Copy, Debug, PartialEq, Eq)]
pub struct Site {
    /// The number of its function.
    pub function: u32,
    /// Its number in that function, in the order of the text.
    pub ordinal: u32,
    /// The type of the elements that it allocates.
    pub elem: TyId,
}

/// A program whose names, types, globals, functions and sites are numbered.
#[derive(Drop)]
pub struct Program {
    pub names: Items<Name>,
    pub types: TypeTable,
    pub globals: Items<Global>,
    /// By first declaration.
    pub functions: Items<Function>,
    /// In the order of the text.
    pub sites: Items<Site>,
}
