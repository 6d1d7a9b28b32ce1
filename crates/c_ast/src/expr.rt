//! Expressions.

use crate::token::Number;
use crate::types::TypeName;
use lu_base::Name;
use sqlite_items::Boxed;

/// `.` or `->`.
#[derive(Clone, Copy, Debug, PartialEq, Eq)]
pub enum Access {
    Dot,
    Arrow,
}

/// What stands before an operand.
#[derive(Clone, Copy, Debug, PartialEq, Eq)]
pub enum UnaryOperator {
    Negate,
    Complement,
    Not,
    Dereference,
    AddressOf,
}

/// What stands between two operands, by C's levels, the tightest first.
#[derive(Clone, Copy, Debug, PartialEq, Eq)]
pub enum BinaryOperator {
    Multiply,
    Divide,
    Remainder,
    Add,
    Subtract,
    ShiftLeft,
    ShiftRight,
    Less,
    LessEqual,
    Greater,
    GreaterEqual,
    Equal,
    NotEqual,
    BitAnd,
    BitXor,
    BitOr,
    And,
    Or,
}

/// An expression as it is written.
#[derive(Drop)]
pub enum Expr {
    Number(Number),
    Character(u8),
    Name(Name),
    /// `( e )`
    Group(Boxed<Expr>),
    /// `sizeof ( type )`
    SizeOf(TypeName),
    /// `e [ e ]`
    Index(Boxed<Expr>, Boxed<Expr>),
    /// `e . name` or `e -> name`
    Member(Boxed<Expr>, Access, Name),
    Unary(UnaryOperator, Boxed<Expr>),
    /// `( type ) e`
    Cast(TypeName, Boxed<Expr>),
    Binary(BinaryOperator, Boxed<Expr>, Boxed<Expr>),
    /// `e ? e : e`
    Conditional(Boxed<Expr>, Boxed<Expr>, Boxed<Expr>),
}
