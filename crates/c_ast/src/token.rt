//! Tokens.

use lu_base::{Bytes8, Name};

/// A keyword of the grammar.
#[derive(Clone, Copy, Debug, PartialEq, Eq)]
pub enum Keyword {
    Void,
    Char,
    Short,
    Int,
    Long,
    Unsigned,
    Struct,
    Union,
    If,
    Else,
    While,
    For,
    Break,
    Continue,
    Return,
    Sizeof,
}

/// A keyword of C that no rule of the grammar uses.
#[derive(Clone, Copy, Debug, PartialEq, Eq)]
pub enum Reserved {
    Auto,
    Case,
    Const,
    Default,
    Do,
    Double,
    Enum,
    Extern,
    Float,
    Goto,
    Inline,
    Register,
    Restrict,
    Signed,
    Static,
    Switch,
    Typedef,
    Volatile,
}

/// The type of a number: the first of its form's types that holds it.
#[derive(Clone, Copy, Debug, PartialEq, Eq)]
pub enum NumberKind {
    Int,
    UnsignedInt,
    LongLong,
    UnsignedLongLong,
}

/// A number and its type.
#[derive(Clone, Copy, Debug, PartialEq, Eq)]
pub struct Number {
    pub value: u64,
    pub kind: NumberKind,
}

/// A mark. Those from `PlusPlus` on are used by no rule of the grammar.
#[derive(Clone, Copy, Debug, PartialEq, Eq)]
pub enum Mark {
    LeftBrace,
    RightBrace,
    LeftParen,
    RightParen,
    LeftBracket,
    RightBracket,
    Semicolon,
    Comma,
    Dot,
    Arrow,
    Star,
    Ampersand,
    Plus,
    Minus,
    Slash,
    Percent,
    Tilde,
    Not,
    ShiftLeft,
    ShiftRight,
    Less,
    LessEqual,
    Greater,
    GreaterEqual,
    EqualEqual,
    NotEqual,
    Caret,
    Pipe,
    LogicalAnd,
    LogicalOr,
    Question,
    Colon,
    Assign,
    PlusPlus,
    MinusMinus,
    PlusAssign,
    MinusAssign,
    StarAssign,
    SlashAssign,
    PercentAssign,
    AmpersandAssign,
    PipeAssign,
    CaretAssign,
    ShiftLeftAssign,
    ShiftRightAssign,
}

/// A token of a text.
#[derive(Drop)]
pub enum Token {
    Identifier(Name),
    Keyword(Keyword),
    Reserved(Reserved),
    Number(Number),
    /// A character between `'`, by its code.
    Character(u8),
    /// A string between `"`, without a zero at its end.
    Text(Bytes8),
    Mark(Mark),
}
