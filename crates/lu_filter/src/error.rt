// Why a text is no filter.

ghost use Rattle.std.specs.Prelude.{◌≡◌};
ghost use Rattle.c_lex.specs.declared.error.LexError.{LexError};
ghost use Rattle.c_parse_expr.specs.declared.error.ParseError.{ParseError};
ghost use Rattle.c_check_scope.specs.declared.error.CheckError.{CheckError};
ghost use Rattle.lu_filter.specs.Causes.{of_tokens, of_grammar, of_rules};

use c_check_scope::error::CheckError;
use c_lex::LexError;
use c_parse_expr::error::ParseError;

/// Why a text is no filter of a program. The column `col` counts bytes from 1, within its own line of the text.
#[derive(Clone, Copy, Debug, PartialEq, Eq)]
pub enum FilterError {
    /// No token begins at this column, or one that is not complete.
    BadByte { col: usize },
    /// The number that begins at this column has no form of a number, or a value that no type holds.
    BadNumber { col: usize },
    /// The tokens are no expression.
    Syntax,
    /// A limit of nesting, of a chain's operators, of a place's steps or of a type's stars is passed first.
    TooDeep,
    /// The least code of the typing rules that the expression breaks.
    Rule { code: u32 },
    /// The expression has a type that is no integer type.
    NotInt,
    /// Memory is wanted.
    Memory,
}

/// The cause that a refused text of tokens is.
pub(crate) fn of_tokens(error: LexError) -> FilterError
    ensures { result ≡ of_tokens error }
{
    match error {
        LexError::BadByte { line: _, col } => FilterError::BadByte { col },
        LexError::BadNumber { line: _, col } => FilterError::BadNumber { col },
        LexError::Memory => FilterError::Memory,
    }
}

/// The cause that refused tokens are.
pub(crate) fn of_grammar(error: ParseError) -> FilterError
    ensures { result ≡ of_grammar error }
{
    match error {
        ParseError::Syntax { decl: _ } => FilterError::Syntax,
        ParseError::TooDeep { decl: _ } => FilterError::TooDeep,
        ParseError::Memory => FilterError::Memory,
    }
}

/// The cause that a refused expression is.
pub(crate) fn of_rules(error: CheckError) -> FilterError
    ensures { result ≡ of_rules error }
{
    match error {
        CheckError::Rule { decl: _, code } => FilterError::Rule { code },
        CheckError::Memory => FilterError::Memory,
    }
}
