// The filter of a text.

ghost use Rattle.std.specs.Prelude.{◌≡◌, ⊤, IfOk, IfErr, slice_get};
ghost use Rattle.c_ast.specs.Trees.{expression};
ghost use Rattle.src_meaning.specs.ValidTypes.{is_integer};
ghost use Rattle.src_meaning.specs.Valid.{IsValidExpression};
ghost use Rattle.lu_filter.specs.Filters.{Spells, Denotes, IsFilter, Refuses};

use crate::FilterError;
use crate::error::{of_grammar, of_rules, of_tokens};
use c_ast::expr::Expr;
use c_check::checking::check_expr;
use c_lex::lex;
use c_parse_expr::whole::parse_expr;
use c_types::{Ty, TyId};
use src_tree::expr::TypedExpr;
use src_tree::program::Program;
use std::alloc::Global;

/// The expression that a text spells.
fn spelled(alloc: Global, program: &Program, text: &[u8]) -> Result<Expr, FilterError>
    ensures read { IfOk result (λ e. Spells text.now (expression e)) }
    ensures refused { IfErr result (Refuses program.now text.now) }
{
    let tokens = match lex(alloc, text) {
        Ok(tokens) => tokens,
        Err(error) => return Err(of_tokens(error)),
    };
    match parse_expr(alloc, tokens.as_slice()) {
        Ok(e) => Ok(e),
        Err(error) => Err(of_grammar(error)),
    }
}

/// The typed expression that a text denotes, which is valid.
fn denoted(alloc: Global, program: &Program, text: &[u8]) -> Result<TypedExpr, FilterError>
    ensures read { IfOk result (Denotes program.now text.now) }
    ensures valid { IfOk result (IsValidExpression program.now) }
    ensures refused { IfErr result (Refuses program.now text.now) }
{
    let e = spelled(alloc, program, text)?;
    match check_expr(alloc, program, &e) {
        Ok(e) => Ok(e),
        Err(error) => Err(of_rules(error)),
    }
}

fn is_integer(program: &Program, ty: TyId) -> bool
    ensures { result ≡ is_integer (slice_get program.now.types.types ty) }
{
    matches!(
        program.types.parts().types.as_slice().get(ty as usize),
        Some(Ty::Int(_))
    )
}

/// The filter that a text is in a program: a valid expression of an integer type in the scope of all globals, functions and
/// built-in functions. Else why it is none.
pub fn read_filter(alloc: Global, program: &Program, text: &str) -> Result<TypedExpr, FilterError>
    ensures filter { IfOk result (IsFilter program.now text.now) }
    ensures refused { IfErr result (Refuses program.now text.now) }
{
    let filter = denoted(alloc, program, text.as_bytes())?;
    if is_integer(program, filter.ty) {
        Ok(filter)
    } else {
        Err(FilterError::NotInt)
    }
}
