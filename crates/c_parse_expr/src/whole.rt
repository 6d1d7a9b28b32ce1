//! Whole expressions.

ghost use Rattle.std.specs.Prelude.{◌≡◌, IfOk};
ghost use Rattle.c_ast.specs.declared.fault.Fault.{Fault};
ghost use Rattle.c_ast.specs.Trees.{Expression, expression};
ghost use Rattle.c_ast.specs.Program.{IsSpelledExpression, IsRefusedExpression};
ghost use Rattle.c_parse_expr.specs.Answers.{located_error, RefusesExpression, OnlyExpression, OnlyRefusedExpression};

use crate::error::{ParseError, ReadError};
use crate::expr::{LIMIT, expr};
use c_ast::expr::Expr;
use c_ast::fault::Fault;
use c_ast::token::Token;
use std::alloc::Global;

/// The error at a declaration of this number.
pub fn located(decl: usize, error: ReadError) -> ParseError
    ensures { result ≡ located_error decl error }
{
    match error {
        ReadError::Memory => ParseError::Memory,
        ReadError::Refused(Fault::Syntax) => ParseError::Syntax { decl },
        ReadError::Refused(Fault::TooDeep) => ParseError::TooDeep { decl },
    }
}

fn read(alloc: Global, tokens: &[Token]) -> Result<Expr, ParseError>
    ensures found { IfOk result (λ e. IsSpelledExpression tokens.now (expression e)) }
    ensures refused { RefusesExpression tokens.now result }
{
    match expr(alloc, tokens, LIMIT) {
        Ok((found, rest)) => {
            if rest.is_empty() {
                Ok(found.into_inner())
            } else {
                Err(ParseError::Syntax { decl: 1 })
            }
        }
        Err(error) => Err(located(1, error)),
    }
}

/// The expression that the tokens spell; a refusal names declaration 1.
pub fn parse_expr(alloc: Global, tokens: &[Token]) -> Result<Expr, ParseError>
    // What is read is an expression whose spelling the text is.
    ensures found { IfOk result (λ e. IsSpelledExpression tokens.now (expression e)) }
    // Where the text is the spelling of an expression, that one is read.
    ensures only { (x : Expression) → IsSpelledExpression tokens.now x → OnlyExpression x result }
    // A refused text is no expression, and the refusal tells whether a limit is passed in it.
    ensures refused { RefusesExpression tokens.now result }
    // Each text that is no expression is refused so.
    ensures kind { (f : Fault) → IsRefusedExpression tokens.now f → OnlyRefusedExpression f result }
{
    read(alloc, tokens)
}
