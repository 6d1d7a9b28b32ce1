// Why no source is read.

ghost use Rattle.std.specs.Prelude.{◌≡◌};
ghost use Rattle.lu_base.specs.declared.shelf.ShelfFault.{ShelfFault as Fault};
ghost use Rattle.c_lex.specs.declared.error.LexError.{LexError};
ghost use Rattle.c_parse_expr.specs.declared.error.ParseError.{ParseError};
ghost use Rattle.c_check_scope.specs.declared.error.CheckError.{CheckError};
ghost use Rattle.lu_source.specs.Causes.{of_file, of_tokens, of_grammar, of_rules};

use c_check_scope::error::CheckError;
use c_lex::LexError;
use c_parse_expr::error::ParseError;
use lu_base::ShelfFault;
use lu_load_lines::SourceRefusal;

/// Why no source is read.
#[derive(Clone, Copy, Debug, PartialEq, Eq)]
pub enum SourceError {
    /// The source is refused.
    Refused(SourceRefusal),
    /// A read failed.
    ReadFault,
    /// An allocation was refused.
    Memory,
}

impl From<ShelfFault> for SourceError {
    ghost from_gives = { λ fault e. e ≡ of_file fault };

    fn from(fault: ShelfFault) -> Self {
        match fault {
            ShelfFault::Failed => SourceError::ReadFault,
            ShelfFault::Absent => SourceError::Refused(SourceRefusal::Absent),
            ShelfFault::TooLarge => SourceError::Refused(SourceRefusal::TooLarge),
            ShelfFault::Memory => SourceError::Memory,
        }
    }
}

impl From<LexError> for SourceError {
    ghost from_gives = { λ error e. e ≡ of_tokens error };

    fn from(error: LexError) -> Self {
        match error {
            LexError::BadByte { line, col } => {
                SourceError::Refused(SourceRefusal::BadByte { line, col })
            }
            LexError::BadNumber { line, col } => {
                SourceError::Refused(SourceRefusal::BadNumber { line, col })
            }
            LexError::Memory => SourceError::Memory,
        }
    }
}

impl From<ParseError> for SourceError {
    ghost from_gives = { λ error e. e ≡ of_grammar error };

    fn from(error: ParseError) -> Self {
        match error {
            ParseError::Syntax { decl } => SourceError::Refused(SourceRefusal::Syntax { decl }),
            ParseError::TooDeep { decl } => SourceError::Refused(SourceRefusal::TooDeep { decl }),
            ParseError::Memory => SourceError::Memory,
        }
    }
}

impl From<CheckError> for SourceError {
    ghost from_gives = { λ error e. e ≡ of_rules error };

    fn from(error: CheckError) -> Self {
        match error {
            CheckError::Rule { decl, code } => {
                SourceError::Refused(SourceRefusal::Rule { decl, code })
            }
            CheckError::Memory => SourceError::Memory,
        }
    }
}
