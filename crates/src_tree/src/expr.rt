// Expressions and places. Each node carries its type's number. An expression has a value, and a place can be read,
// assigned or have its address taken. Conversions are nodes, also those that the text doesn't write.

use c_types::TyId;
use sqlite_items::Boxed;

/// Operators on one integer, which has the node's type, and `!` on a scalar.
#[derive(Clone, Copy, Debug, PartialEq, Eq)]
pub enum UnaryOperator {
    Minus,
    Complement,
    /// The int 1 for null or zero, else 0.
    Not,
}

/// Operators on two values, the left of which is evaluated first.
#[derive(Clone, Copy, Debug, PartialEq, Eq)]
pub enum BinaryOperator {
    Add,
    Subtract,
    Multiply,
    Divide,
    Remainder,
    BitAnd,
    BitXor,
    BitOr,
    ShiftLeft,
    ShiftRight,
    /// Order of integers, or of pointers into one object; an int.
    Less,
    LessEqual,
    Greater,
    GreaterEqual,
    /// Equality of integers, of pointers, or of function pointers; an int.
    Equal,
    NotEqual,
    /// A pointer plus a long long, `p + i`; the node's type is the pointer's.
    PointerAdd,
    /// A long long plus a pointer, `i + p`.
    AddPointer,
    /// A pointer minus a long long, `p - i`.
    PointerSubtract,
    /// The difference of two pointers of one type, `p - q`, an int.
    PointerDifference,
}

/// Operators whose right operand may stay unevaluated. Both operands are scalars, and the result is an int.
#[derive(Clone, Copy, Debug, PartialEq, Eq)]
pub enum LogicalOperator {
    And,
    Or,
}

/// An expression with the number of its type.
#[cycle(expr)]
#[derive(Drop)]
pub struct TypedExpr {
    pub ty: TyId,
    pub kind: ExprKind,
}

#[cycle(expr)]
#[derive(Drop)]
pub enum ExprKind {
    /// A number or a character.
    Number(i128),
    /// `sizeof` of a type; an unsigned int.
    SizeOf(TyId),
    /// A parameter or a local, by its number: the parameters come first.
    Local(u32),
    /// A function's name as a value.
    Function(u32),
    /// What stands at a place.
    Load(Boxed<TypedPlace>),
    /// `&` of a place.
    AddressOf(Boxed<TypedPlace>),
    /// An array place as a value: the address of its element 0. The text doesn't write it.
    Decay(Boxed<TypedPlace>),
    /// A written cast to the node's type.
    Cast(Boxed<TypedExpr>),
    /// A conversion to the node's type that the text doesn't write.
    Convert(Boxed<TypedExpr>),
    Unary(UnaryOperator, Boxed<TypedExpr>),
    Binary(BinaryOperator, Boxed<TypedExpr>, Boxed<TypedExpr>),
    Logical(LogicalOperator, Boxed<TypedExpr>, Boxed<TypedExpr>),
    /// `?:`
    Conditional(Boxed<TypedExpr>, Boxed<TypedExpr>, Boxed<TypedExpr>),
}

/// A place with the number of its type.
#[cycle(expr)]
#[derive(Drop)]
pub struct TypedPlace {
    pub ty: TyId,
    pub kind: PlaceKind,
}

#[cycle(expr)]
#[derive(Drop)]
pub enum PlaceKind {
    Global(u32),
    /// `*e`
    Deref(Boxed<TypedExpr>),
    /// What the left side of a `->` points to. The step itself is a `Field` or `Member` of this place.
    Arrow(Boxed<TypedExpr>),
    /// `p[i]` of a pointer and a long long.
    Item(Boxed<TypedExpr>, Boxed<TypedExpr>),
    /// `a[i]` of an array place and a long long.
    Element(Boxed<TypedPlace>, Boxed<TypedExpr>),
    /// A field of a struct, by its number.
    Field(Boxed<TypedPlace>, u32),
    /// A member of a union, by its number.
    Member(Boxed<TypedPlace>, u32),
}
