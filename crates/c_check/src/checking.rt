// An expression in the scope of a program.

ghost use Rattle.std.specs.Prelude.{◌≡◌, IfOk, IfErr, Ok};
ghost use Rattle.c_ast.specs.Trees.{expression};
ghost use Rattle.c_check_expr.specs.Typing.{typed};
ghost use Rattle.src_meaning.specs.Valid.{IsValidExpression};
ghost use Rattle.c_check.specs.ProgramScope.{scope_of};
ghost use Rattle.c_check.specs.Refusals.{Refuses};

use crate::program_scope::scope_of;
use c_ast::expr::Expr;
use c_check_expr::typing::denoted;
use c_check_expr::values::valued;
use c_check_scope::checked::Checked;
use c_check_scope::error::CheckError;
use sqlite_items::Boxed;
use src_model::is_valid_expression;
use src_tree::expr::TypedExpr;
use src_tree::program::Program;
use std::alloc::{AllocError, Global};

fn typed(
    alloc: Global,
    program: &Program,
    e: &Expr,
) -> Result<Checked<Boxed<TypedExpr>>, AllocError>
    ensures { IfOk result (λ t. t ≡ typed (scope_of program.now) (expression e.now)) }
{
    let scope = scope_of(alloc, program)?;
    let denoted = denoted(alloc, &scope, e)?;
    valued(alloc, &scope.types, denoted)
}

/// The expression as a value with its type, which is valid in the program, in the scope of all globals, functions and
/// built-in functions of the program; or the least code of the rules that it breaks. Want of memory also where the
/// typed expression isn't valid, as where the tree of the expression passes the limits of its grammar.
#[tactic(auto, using(crate::proofs::Least::least_broken))]
pub fn check_expr(alloc: Global, program: &Program, e: &Expr) -> Result<TypedExpr, CheckError>
    ensures typed { IfOk result (λ t. typed (scope_of program.now) (expression e.now) ≡ Ok t) }
    ensures valid { IfOk result (IsValidExpression program.now) }
    ensures refused { IfErr result (Refuses program.now (expression e.now)) }
{
    match typed(alloc, program, e)? {
        Ok(e) => {
            let e = e.into_inner();
            if is_valid_expression(program, &e) {
                Ok(e)
            } else {
                Err(CheckError::Memory)
            }
        }
        Err(rules) => Err(CheckError::Rule {
            decl: 1,
            code: rules.least(),
        }),
    }
}
