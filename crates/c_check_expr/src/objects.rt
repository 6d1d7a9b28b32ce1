// The types of fields and globals.

ghost use Rattle.std.specs.Prelude.{◌≡◌, IfOk};
ghost use Rattle.c_ast.specs.Trees.{object};
ghost use Rattle.c_check_expr.specs.Declarators as spec;

use crate::params::signature;
use crate::signatures::pointer_type;
use crate::typing::named;
use c_ast::decl::Named;
use c_ast::token::Number;
use c_check_scope::checked::{Checked, both};
use c_check_scope::rule::Rule;
use c_check_scope::rules::Rules;
use c_check_scope::scope::Scope;
use c_check_scope::types::Types;
use c_types::{Ty, TyId};
use std::alloc::{AllocError, Global};

/// The elements that an array may have.
pub const GREATEST_LENGTH: u64 = 1_048_576;

/// What a field or global holds.
#[derive(Clone, Copy, Debug, PartialEq, Eq)]
pub struct ObjectType {
    /// The number of its type, or of the type of its elements where it is an array.
    pub element: TyId,
    /// How many elements it has, where it is an array.
    pub count: Option<u32>,
}

#[tactic(auto, unfolding(crate::specs::Declarators::array_length))]
fn array_length(length: Number) -> Checked<u32>
    ensures { result ≡ spec.array_length length }
{
    if 0 < length.value && length.value <= GREATEST_LENGTH {
        Ok(length.value as u32)
    } else {
        Err(Rules::only(Rule::ArrayLength))
    }
}

#[tactic(auto, unfolding(crate::specs::Declarators::with_length))]
pub fn with_length(ty: Checked<TyId>, length: Option<Number>) -> Checked<ObjectType>
    ensures { result ≡ spec.with_length ty length }
{
    match length {
        None => match ty {
            Err(rules) => Err(rules),
            Ok(element) => Ok(ObjectType {
                element,
                count: None,
            }),
        },
        Some(length) => match both(ty, array_length(length)) {
            Err(rules) => Err(rules),
            Ok((element, count)) => Ok(ObjectType {
                element,
                count: Some(count),
            }),
        },
    }
}

/// The type of a field or global.
#[tactic(auto, unfolding(crate::specs::Declarators::object_type))]
pub fn object_type(
    alloc: Global,
    scope: &Scope,
    named_object: &Named,
) -> Result<Checked<ObjectType>, AllocError>
    ensures { IfOk result (λ ty. ty ≡ spec.object_type scope.now (object named_object.now)) }
{
    match named_object {
        Named::Object(name, _, length) => Ok(with_length(named(scope, name), *length)),
        Named::Function(answer, _, length, params) => {
            let signature = signature(alloc, scope, answer, params.as_slice())?;
            Ok(with_length(pointer_type(&scope.types, signature), *length))
        }
    }
}

/// The number of the type of a field or global; 0 where the table doesn't have it.
#[tactic(auto, unfolding(crate::specs::Declarators::object_number))]
pub fn object_number(types: &Types, ty: ObjectType) -> TyId
    ensures { result ≡ spec.object_number types.now ty }
{
    match ty.count {
        None => ty.element,
        Some(count) => types.number_of(Ty::Array(ty.element, count)),
    }
}
