// Expressions as values.

ghost use Rattle.std.specs.Prelude.{◌≡◌, IfOk};
ghost use Rattle.c_check_expr.specs.Denoted.{type_at, value, loaded, value_of, valued, converted, operand};

use crate::denoted::Denoted;
use c_check_scope::checked::Checked;
use c_check_scope::kinds::element_of;
use c_check_scope::operand::Operand;
use c_check_scope::operation::INT;
use c_check_scope::rule::Rule;
use c_check_scope::rules::Rules;
use c_check_scope::types::Types;
use c_types::{Ty, TyId};
use sqlite_items::Boxed;
use src_tree::expr::{ExprKind, TypedExpr, TypedPlace};
use std::alloc::{AllocError, Global};

/// The type of a number; `int` where there is no such type.
#[tactic(auto, unfolding(crate::specs::Denoted::type_at))]
pub fn type_at(types: &Types, number: TyId) -> Ty
    ensures { result ≡ type_at types.now number }
{
    match types.parts().find_type(number) {
        None => INT,
        Some(ty) => ty,
    }
}

/// An expression with the number of its type.
pub fn node(alloc: Global, ty: TyId, kind: ExprKind) -> Result<Boxed<TypedExpr>, AllocError>
    ensures { IfOk result (λ e. e ≡ value ty kind) }
{
    Boxed::new(alloc, TypedExpr { ty, kind })
}

#[tactic(auto, unfolding(crate::specs::Denoted::loaded))]
fn loaded(
    alloc: Global,
    types: &Types,
    place: Boxed<TypedPlace>,
    inside: bool,
) -> Result<Checked<Boxed<TypedExpr>>, AllocError>
    ensures { IfOk result (λ e. e ≡ loaded types.now place inside) }
{
    let number = place.get().ty;
    match element_of(type_at(types, number)) {
        None => Ok(Ok(node(alloc, number, ExprKind::Load(place))?)),
        Some(element) => {
            if inside {
                return Ok(Err(Rules::only(Rule::NoAddress)));
            }
            let ty = types.number_of(Ty::Pointer(element));
            Ok(Ok(node(alloc, ty, ExprKind::Decay(place))?))
        }
    }
}

/// The value of what is denoted: of a place what stands there, or the address of its element 0 where it is an array.
#[tactic(auto, unfolding(crate::specs::Denoted::value_of))]
pub fn value_of(
    alloc: Global,
    types: &Types,
    denoted: Denoted,
) -> Result<Checked<Boxed<TypedExpr>>, AllocError>
    ensures { IfOk result (λ e. e ≡ value_of types.now denoted) }
{
    match denoted {
        Denoted::Null => Ok(Ok(node(alloc, types.number_of(INT), ExprKind::Number(0))?)),
        Denoted::Local(number, ty) => Ok(Ok(node(alloc, ty, ExprKind::Local(number))?)),
        Denoted::Function(number, signature) => {
            let ty = types.number_of(Ty::Function(signature));
            Ok(Ok(node(alloc, ty, ExprKind::Function(number))?))
        }
        Denoted::BuiltIn(_) => Ok(Err(Rules::only(Rule::BuiltIn))),
        Denoted::Place(place, inside) => loaded(alloc, types, place, inside),
        Denoted::Value(e) => Ok(Ok(e)),
    }
}

/// The same, where a rule may be broken.
#[tactic(auto, unfolding(crate::specs::Denoted::valued))]
pub fn valued(
    alloc: Global,
    types: &Types,
    denoted: Checked<Denoted>,
) -> Result<Checked<Boxed<TypedExpr>>, AllocError>
    ensures { IfOk result (λ e. e ≡ valued types.now denoted) }
{
    match denoted {
        Err(rules) => Ok(Err(rules)),
        Ok(denoted) => value_of(alloc, types, denoted),
    }
}

/// The value converted to the type of a number, without a node where it has that type.
#[tactic(auto, unfolding(crate::specs::Denoted::converted))]
pub fn converted(
    alloc: Global,
    ty: TyId,
    e: Boxed<TypedExpr>,
) -> Result<Boxed<TypedExpr>, AllocError>
    ensures { IfOk result (λ c. c ≡ converted ty e) }
{
    if e.get().ty == ty {
        Ok(e)
    } else {
        node(alloc, ty, ExprKind::Convert(e))
    }
}

/// What rules on operands ask of a value.
#[tactic(auto, unfolding(crate::specs::Denoted::operand))]
pub fn operand(types: &Types, e: &TypedExpr, is_null: bool) -> Operand
    ensures { result ≡ operand types.now e.now is_null }
{
    Operand {
        ty: type_at(types, e.ty),
        is_null,
    }
}
