use lu_base::Memory;
use std::error::Error;
use std::fmt;

/// Why a text has no tokens. The line `line` and the column `col` count from 1, and a column counts bytes.
#[derive(Clone, Copy, Debug, PartialEq, Eq)]
pub enum LexError {
    /// The first byte at which no token begins, or at which a comment, a character or a string begins that is not complete.
    BadByte { line: usize, col: usize },
    /// The first digit of a number that has no form of a number, or a value that no type holds.
    BadNumber { line: usize, col: usize },
    /// An allocation was refused.
    Memory,
}

impl fmt::Display for LexError {
    fn fmt<W: fmt::Write>(&self, f: &mut fmt::Formatter<W>) -> fmt::Result {
        match self {
            LexError::BadByte { line, col } => {
                let line = *line;
                let col = *col;
                write!(f, "line {line}, column {col}: no token begins here")
            }
            LexError::BadNumber { line, col } => {
                let line = *line;
                let col = *col;
                write!(f, "line {line}, column {col}: not a number")
            }
            LexError::Memory => f.write_str("out of memory"),
        }
    }
}

impl Error for LexError {}

impl From<Memory> for LexError {
    ghost use Rattle.std.specs.Prelude.{◌≡◌};
    ghost use Rattle.c_lex.specs.declared.error.LexError.{LexError};

    ghost from_gives = { λ _ e. e ≡ LexError.Memory };

    fn from(_: Memory) -> Self {
        LexError::Memory
    }
}
