// Signatures, each once, and the types of pointers to functions.

ghost use Rattle.std.specs.Prelude.{◌≡◌, IfOk, OnOk, [], Ok, None};
ghost use Rattle.c_ast.specs.Trees.{parameter, parameters};
ghost use Rattle.c_check_table.specs.Signatures as spec;

use crate::draft::{Draft, push};
use c_ast::stmt::Param;
use c_ast::types::TypeName;
use c_check_expr::params::{made_signature, one_more, param_type, result_type};
use c_check_expr::signatures::place_of;
use c_check_scope::checked::Checked;
use c_check_scope::numbers::as_number;
use c_check_scope::scope::Scope;
use c_types::{Sequence, Signature, Ty, TyId};
use std::alloc::{AllocError, Global};

/// The stars that a pointer type of the table may have over a type that is none.
pub const GREATEST_STARS: u8 = 9;

fn add_next(draft: &mut Draft, alloc: Global, signature: Signature) -> Result<TyId, AllocError>
    ensures draft { OnOk result (draft.new ≡ (spec.signed_at draft.old signature None).0) }
    ensures ty { IfOk result (λ ty. ty ≡ (spec.signed_at draft.old signature None).1) }
{
    let number = as_number(draft.signatures.as_slice().len())?;
    push(&mut draft.signatures, alloc, signature)?;
    let shape = draft.pointer_shape();
    draft.add_with_pointers(GREATEST_STARS, Ty::Function(number), shape)
}

/// Adds a signature, if it isn't there, with the type of pointers to its functions, and gives the number of this type.
#[tactic(auto, unfolding(crate::specs::Signatures::signed))]
fn add_signature(draft: &mut Draft, alloc: Global, signature: Signature) -> Result<TyId, AllocError>
    ensures draft { OnOk result (draft.new ≡ (spec.signed draft.old signature).0) }
    ensures ty { IfOk result (λ ty. ty ≡ (spec.signed draft.old signature).1) }
{
    match place_of(draft.signatures.as_slice(), &signature) {
        Some(number) => {
            let number = as_number(number)?;
            as_number(draft.types.place_of(Ty::Function(number)))
        }
        None => add_next(draft, alloc, signature),
    }
}

#[tactic(auto, unfolding(crate::specs::Signatures::pointer_in))]
fn add_pointer(
    draft: &mut Draft,
    alloc: Global,
    signature: Checked<Signature>,
) -> Result<Checked<TyId>, AllocError>
    ensures draft { OnOk result (draft.new ≡ (spec.pointer_in draft.old signature).0) }
    ensures ty { IfOk result (λ ty. ty ≡ (spec.pointer_in draft.old signature).1) }
{
    match signature {
        Err(rules) => Ok(Err(rules)),
        Ok(signature) => Ok(Ok(add_signature(draft, alloc, signature)?)),
    }
}

/// Adds the signatures in the type of a parameter or local, and gives the number of this type.
#[cycle(param)]
#[tactic(auto, using(c_ast::proofs::Views::views))]
pub fn add_param(
    draft: &mut Draft,
    alloc: Global,
    scope: &Scope,
    param: &Param,
) -> Result<Checked<TyId>, AllocError>
    ensures draft { OnOk result (draft.new ≡ (spec.parameter_in scope.now draft.old (parameter param.now)).0) }
    ensures ty { IfOk result (λ ty. ty ≡ (spec.parameter_in scope.now draft.old (parameter param.now)).1) }
{
    match param {
        Param::Object(_, _) => param_type(alloc, scope, param),
        Param::Function(answer, _, params) => {
            add_heading(draft, alloc, scope, answer, params.as_slice())
        }
    }
}

#[cycle(param)]
fn add_params(
    draft: &mut Draft,
    alloc: Global,
    scope: &Scope,
    params: &[Param],
) -> Result<Checked<Sequence<TyId>>, AllocError>
    ensures draft { OnOk result (draft.new ≡ (spec.parameters_in scope.now draft.old (Ok []) (parameters params.now)).0) }
    ensures types { IfOk result (λ types. types ≡ (spec.parameters_in scope.now draft.old (Ok []) (parameters params.now)).1) }
{
    let mut types: Checked<Sequence<TyId>> = Ok(Sequence::from_vec(Vec::new(alloc)));
    for param in params {
        let ty = add_param(draft, alloc, scope, param)?;
        types = one_more(types, ty)?;
    }
    Ok(types)
}

/// Adds a function's signature and those in its parameters, and gives the number of the type of pointers to such
/// functions. A signature that breaks a rule adds nothing.
#[cycle(param)]
pub fn add_heading(
    draft: &mut Draft,
    alloc: Global,
    scope: &Scope,
    answer: &TypeName,
    params: &[Param],
) -> Result<Checked<TyId>, AllocError>
    ensures draft { OnOk result (draft.new ≡ (spec.heading_in scope.now draft.old answer.now (parameters params.now)).0) }
    ensures ty { IfOk result (λ ty. ty ≡ (spec.heading_in scope.now draft.old answer.now (parameters params.now)).1) }
{
    let params = add_params(draft, alloc, scope, params)?;
    add_pointer(
        draft,
        alloc,
        made_signature(result_type(scope, answer), params),
    )
}
