// What the definitions of validity share with the code that decides it.

/// Where an expression stands.
#[derive(Clone, Copy, Debug, PartialEq, Eq)]
pub struct Spot {
    /// The loosest rank that needs no parentheses.
    pub rank: u32,
    /// 65 less the constructs that are open.
    pub room: u32,
    /// The operators or steps that the chain of this rank may still have.
    pub left: u32,
}

/// What comes next in a function.
#[derive(Clone, Copy, Debug, PartialEq, Eq)]
pub struct Next {
    /// The number of the next local.
    pub local: u64,
    /// The number of the next site among those of its function.
    pub ordinal: u64,
}

/// A kind of types that differ by a number: that of a struct, of a union, of the signature of a function that is pointed
/// to, or of the type that is pointed to.
#[derive(Clone, Copy)]
pub enum Kind {
    Struct,
    Union,
    FunctionPointer,
    Pointer,
}

/// The words of C, those that no rule uses too. None of them is an identifier.
pub const KEYWORDS: [&[u8]; 34] = [
    b"void",
    b"char",
    b"short",
    b"int",
    b"long",
    b"unsigned",
    b"struct",
    b"union",
    b"if",
    b"else",
    b"while",
    b"for",
    b"break",
    b"continue",
    b"return",
    b"sizeof",
    b"auto",
    b"case",
    b"const",
    b"default",
    b"do",
    b"double",
    b"enum",
    b"extern",
    b"float",
    b"goto",
    b"inline",
    b"register",
    b"restrict",
    b"signed",
    b"static",
    b"switch",
    b"typedef",
    b"volatile",
];

/// The functions that every program may call.
pub const BUILT_INS: [&[u8]; 5] = [b"send", b"malloc", b"calloc", b"free", b"panic"];
