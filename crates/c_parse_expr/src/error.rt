//! Why nothing is read.

ghost use Rattle.std.specs.Prelude.{◌≡◌};

use c_ast::fault::Fault;
use lu_base::Memory as NoMemory;
use std::alloc::AllocError;

/// Why nothing is read from the front of a text.
#[derive(Debug, Drop)]
pub enum ReadError {
    /// Memory is wanted.
    Memory,
    Refused(Fault),
}

impl From<AllocError> for ReadError {
    ghost use Rattle.c_parse_expr.specs.declared.error.ReadError.TheVariants.{Memory};

    ghost from_gives = { λ _ e. e ≡ Memory };

    fn from(_: AllocError) -> ReadError {
        ReadError::Memory
    }
}

impl From<NoMemory> for ReadError {
    ghost use Rattle.c_parse_expr.specs.declared.error.ReadError.TheVariants.{Memory as Wanted};

    ghost from_gives = { λ _ e. e ≡ Wanted };

    fn from(_: NoMemory) -> ReadError {
        ReadError::Memory
    }
}

/// Why a text is refused, and the number of the declaration that can't be read, counted from 1.
#[derive(Debug, Drop)]
pub enum ParseError {
    /// A token fits no continuation, or the text ends too early.
    Syntax { decl: usize },
    /// A limit of nesting, of a chain's operators, of a postfix's steps or of a type's stars is passed first.
    TooDeep { decl: usize },
    /// Memory is wanted.
    Memory,
}

impl From<AllocError> for ParseError {
    ghost use Rattle.c_parse_expr.specs.declared.error.ParseError.TheVariants.{Memory as WantedHere};

    ghost from_gives = { λ _ e. e ≡ WantedHere };

    fn from(_: AllocError) -> ParseError {
        ParseError::Memory
    }
}
