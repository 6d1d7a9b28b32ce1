// The declaration of parameters and locals.

ghost use Rattle.std.specs.Prelude.{◌≡◌, IfOk, Ok};
ghost use Rattle.c_ast.specs.Trees.{parameter, parameters};
ghost use Rattle.c_check_expr.specs.Declarators as declarators;
ghost use Rattle.c_check_stmt.specs.Variables as spec;

use c_ast::stmt::Param;
use c_check_expr::params::param_type;
use c_check_scope::checked::{Checked, both};
use c_check_scope::numbers::as_number;
use c_check_scope::operation::INT;
use c_check_scope::rule::Rule;
use c_check_scope::rules::Rules;
use c_check_scope::scope::{Meaning, Scope};
use c_check_scope::types::Types;
use c_types::TyId;
use lu_base::Name;
use std::alloc::{AllocError, Global};

/// The name that is declared.
#[tactic(auto, using(c_ast::proofs::Views::views))]
pub fn name_of(param: &Param) -> &Name
    ensures { result.now ≡ spec.name_of (parameter param.now) }
{
    match param {
        Param::Object(_, name) => name,
        Param::Function(_, name, _) => name,
    }
}

/// The type that a variable has where it is used: int where its own breaks a rule.
#[tactic(auto, unfolding(crate::specs::Variables::used_type))]
pub fn used_type(types: &Types, ty: &Checked<TyId>) -> TyId
    ensures { result ≡ spec.used_type types.now ty.now }
{
    match ty {
        Err(_) => types.number_of(INT),
        Ok(ty) => *ty,
    }
}

/// A type, or the rules that it breaks, once more.
pub fn copied(ty: &Checked<TyId>) -> Checked<TyId>
    ensures { result ≡ ty.now }
{
    match ty {
        Err(rules) => Err(*rules),
        Ok(ty) => Ok(*ty),
    }
}

#[tactic(auto, unfolding(crate::specs::Variables::fresh, crate::specs::Variables::with_variable))]
fn add_variable(
    alloc: Global,
    scope: &mut Scope,
    name: &Name,
    ty: TyId,
) -> Result<Checked<u32>, AllocError>
    ensures number { IfOk result (λ number. number ≡ spec.fresh scope.old name.now) }
    ensures scope { IfOk result (λ _. scope.new ≡ spec.with_variable scope.old name.now ty) }
{
    match scope.meaning_of(name) {
        Some(_) => Ok(Err(Rules::only(Rule::LocalTaken))),
        None => {
            let number = as_number(scope.variables.len())?;
            scope.locals.add(alloc, name)?;
            scope.variables.push(Meaning::Local(number, ty))?;
            Ok(Ok(number))
        }
    }
}

#[tactic(auto, unfolding(crate::specs::Variables::later))]
fn later(done: Checked<u32>, next: Checked<u32>) -> Checked<u32>
    ensures { result ≡ spec.later done next }
{
    match both(done, next) {
        Err(rules) => Err(rules),
        Ok((_, number)) => Ok(number),
    }
}

/// Declares a variable of a type, unless its name is taken, and gives its number.
pub fn declare(
    alloc: Global,
    scope: &mut Scope,
    ty: Checked<TyId>,
    name: &Name,
) -> Result<Checked<u32>, AllocError>
    ensures number { IfOk result (λ number. number ≡ spec.declared scope.old ty name.now) }
    ensures scope { IfOk result (λ _. scope.new ≡ spec.with_variable scope.old name.now (spec.used_type scope.old.types ty)) }
{
    let used = used_type(&scope.types, &ty);
    let number = add_variable(alloc, scope, name, used)?;
    Ok(later(ty, number))
}

fn declare_param(
    alloc: Global,
    scope: &mut Scope,
    param: &Param,
) -> Result<Checked<u32>, AllocError>
    ensures number { IfOk result (λ number. number ≡ spec.declared scope.old (declarators.param_type scope.old (parameter param.now)) (spec.name_of (parameter param.now))) }
    ensures scope { IfOk result (λ _. scope.new ≡ spec.with_parameter scope.old (parameter param.now)) }
{
    let ty = param_type(alloc, scope, param)?;
    declare(alloc, scope, ty, name_of(param))
}

/// Declares parameters in order, and gives the number of the last one, 0 where there is none.
pub fn declare_params(
    alloc: Global,
    scope: &mut Scope,
    params: &[Param],
) -> Result<Checked<u32>, AllocError>
    ensures number { IfOk result (λ number. number ≡ spec.declared_all scope.old (Ok 0) (parameters params.now)) }
    ensures scope { IfOk result (λ _. scope.new ≡ spec.with_parameters scope.old (parameters params.now)) }
{
    let mut done: Checked<u32> = Ok(0);
    for param in params {
        let next = declare_param(alloc, scope, param)?;
        done = later(done, next);
    }
    Ok(done)
}
