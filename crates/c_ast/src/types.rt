//! Types as they are written.

use lu_base::Name;

/// What follows `unsigned`.
#[derive(Clone, Copy, Debug, PartialEq, Eq)]
pub enum UnsignedType {
    /// Nothing: `unsigned` alone.
    Plain,
    Char,
    Short,
    Int,
    LongLong,
}

/// `struct` or `union`.
#[derive(Clone, Copy, Debug, PartialEq, Eq)]
pub enum TagKind {
    Struct,
    Union,
}

/// A type without stars.
#[derive(Drop)]
pub enum BaseType {
    Void,
    Char,
    Short,
    Int,
    LongLong,
    Unsigned(UnsignedType),
    Tagged(TagKind, Name),
}

/// A type: so many pointers (`*`) to a base type.
#[derive(Drop)]
pub struct TypeName {
    pub base: BaseType,
    pub stars: u8,
}
