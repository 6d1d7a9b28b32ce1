// The types of parameters and locals, and signatures.

ghost use Rattle.std.specs.Prelude.{◌≡◌, IfOk, [], Ok};
ghost use Rattle.c_ast.specs.Trees.{parameter, parameters};
ghost use Rattle.c_check_expr.specs.Declarators as spec;

use crate::signatures::pointer_type;
use crate::typing::named;
use crate::values::type_at;
use c_ast::stmt::Param;
use c_ast::types::{BaseType, TypeName};
use c_check_scope::checked::{Checked, both};
use c_check_scope::kinds::is_scalar;
use c_check_scope::rule::Rule;
use c_check_scope::rules::Rules;
use c_check_scope::scope::Scope;
use c_check_scope::types::Types;
use c_types::{Sequence, Signature, TyId};
use std::alloc::{AllocError, Global};

/// The parameters that a function may have.
pub const GREATEST_PARAMS: usize = 64;

#[tactic(auto, unfolding(crate::specs::Declarators::scalar_type))]
fn scalar_type(types: &Types, ty: Checked<TyId>) -> Checked<TyId>
    ensures { result ≡ spec.scalar_type types.now ty }
{
    match ty {
        Err(rules) => Err(rules),
        Ok(ty) => {
            if is_scalar(type_at(types, ty)) {
                Ok(ty)
            } else {
                Err(Rules::only(Rule::NotScalar))
            }
        }
    }
}

/// The number of the type of a function's result; none for `void`.
#[tactic(auto, unfolding(crate::specs::Declarators::result_type))]
pub fn result_type(scope: &Scope, name: &TypeName) -> Checked<Option<TyId>>
    ensures { result ≡ spec.result_type scope.now name.now }
{
    if let BaseType::Void = name.base {
        if name.stars == 0 {
            return Ok(None);
        }
    }
    match scalar_type(&scope.types, named(scope, name)) {
        Err(rules) => Err(rules),
        Ok(ty) => Ok(Some(ty)),
    }
}

#[tactic(auto, unfolding(crate::specs::Declarators::one_more))]
pub fn one_more(
    done: Checked<Sequence<TyId>>,
    ty: Checked<TyId>,
) -> Result<Checked<Sequence<TyId>>, AllocError>
    ensures { IfOk result (λ types. types ≡ spec.one_more done ty) }
{
    match both(done, ty) {
        Err(rules) => Ok(Err(rules)),
        Ok((done, ty)) => {
            let mut types = done.into_vec();
            types.push(ty)?;
            Ok(Ok(Sequence::from_vec(types)))
        }
    }
}

#[tactic(auto, unfolding(crate::specs::Declarators::few))]
fn few(types: Checked<Sequence<TyId>>) -> Checked<Sequence<TyId>>
    ensures { result ≡ spec.few types }
{
    match types {
        Err(rules) => Err(rules),
        Ok(types) => {
            if GREATEST_PARAMS < types.as_slice().len() {
                Err(Rules::only(Rule::TooManyLocals))
            } else {
                Ok(types)
            }
        }
    }
}

#[tactic(auto, unfolding(crate::specs::Declarators::made_signature))]
pub fn made_signature(
    answer: Checked<Option<TyId>>,
    params: Checked<Sequence<TyId>>,
) -> Checked<Signature>
    ensures { result ≡ spec.made_signature answer params }
{
    match both(answer, few(params)) {
        Err(rules) => Err(rules),
        Ok((answer, params)) => Ok(Signature {
            result: answer,
            params,
        }),
    }
}

/// The number of the type of a parameter or local, which is a scalar.
#[cycle(param)]
#[tactic(auto, using(c_ast::proofs::Views::views))]
pub fn param_type(alloc: Global, scope: &Scope, param: &Param) -> Result<Checked<TyId>, AllocError>
    ensures { IfOk result (λ ty. ty ≡ spec.param_type scope.now (parameter param.now)) }
{
    match param {
        Param::Object(name, _) => Ok(scalar_type(&scope.types, named(scope, name))),
        Param::Function(answer, _, params) => {
            let signature = signature(alloc, scope, answer, params.as_slice())?;
            Ok(pointer_type(&scope.types, signature))
        }
    }
}

#[cycle(param)]
fn param_types(
    alloc: Global,
    scope: &Scope,
    params: &[Param],
) -> Result<Checked<Sequence<TyId>>, AllocError>
    ensures { IfOk result (λ types. types ≡ spec.param_types scope.now (Ok []) (parameters params.now)) }
{
    let mut types: Checked<Sequence<TyId>> = Ok(Sequence::from_vec(Vec::new(alloc)));
    for param in params {
        let ty = param_type(alloc, scope, param)?;
        types = one_more(types, ty)?;
    }
    Ok(types)
}

/// The types of a function's result and parameters, which are scalars; at most 64 parameters.
#[cycle(param)]
pub fn signature(
    alloc: Global,
    scope: &Scope,
    answer: &TypeName,
    params: &[Param],
) -> Result<Checked<Signature>, AllocError>
    ensures { IfOk result (λ g. g ≡ spec.signature scope.now answer.now (parameters params.now)) }
{
    let params = param_types(alloc, scope, params)?;
    Ok(made_signature(result_type(scope, answer), params))
}
