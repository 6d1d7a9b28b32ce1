// Where statements use expressions: conditions, right sides and the places that are assigned.

ghost use Rattle.std.specs.Prelude.{◌≡◌, IfOk};
ghost use Rattle.c_ast.specs.Trees.{expression};
ghost use Rattle.c_check_expr.specs.Uses.{condition, lies_inside, given, right_value, right_side, targeted, left_side};

use crate::denoted::{Denoted, is_null};
use crate::operators::scalar;
use crate::places::{has_form, unplaced};
use crate::typing::denoted;
use crate::values::{converted, operand, type_at, valued};
use c_ast::expr::Expr;
use c_check_scope::checked::Checked;
use c_check_scope::conversions::converts;
use c_check_scope::kinds::{element_of, is_record};
use c_check_scope::rule::Rule;
use c_check_scope::rules::Rules;
use c_check_scope::scope::Scope;
use c_check_scope::types::Types;
use c_types::TyId;
use sqlite_items::Boxed;
use src_tree::expr::{TypedExpr, TypedPlace};
use std::alloc::{AllocError, Global};

/// The left side of an assignment.
#[derive(Drop)]
pub enum Assigned {
    /// A parameter or local, with its number and the number of its type.
    Local(u32, TyId),
    Place(Boxed<TypedPlace>),
}

/// An expression as a condition, which is a scalar.
#[tactic(auto, unfolding(crate::specs::Uses::condition))]
pub fn condition(
    alloc: Global,
    scope: &Scope,
    e: &Expr,
) -> Result<Checked<Boxed<TypedExpr>>, AllocError>
    ensures { IfOk result (λ c. c ≡ condition scope.now (expression e.now)) }
{
    let e = denoted(alloc, scope, e)?;
    let e = valued(alloc, &scope.types, e)?;
    Ok(scalar(&scope.types, e))
}

#[tactic(auto, unfolding(crate::specs::Uses::lies_inside))]
fn lies_inside(types: &Types, denoted: &Checked<Denoted>) -> bool
    ensures { result ≡ lies_inside types.now denoted.now }
{
    match denoted {
        Ok(Denoted::Place(place, inside)) => {
            *inside && is_record(type_at(types, place.get().ty))
        }
        _ => false,
    }
}

#[tactic(auto, unfolding(crate::specs::Uses::given))]
fn given(
    alloc: Global,
    types: &Types,
    ty: TyId,
    is_null: bool,
    inside: bool,
    e: Boxed<TypedExpr>,
) -> Result<Checked<Boxed<TypedExpr>>, AllocError>
    ensures { IfOk result (λ v. v ≡ given types.now ty is_null inside e) }
{
    if !converts(operand(types, e.get(), is_null), type_at(types, ty)) {
        return Ok(Err(Rules::only(Rule::Conversion)));
    }
    if inside {
        return Ok(Err(Rules::only(Rule::InsideUnion)));
    }
    Ok(Ok(converted(alloc, ty, e)?))
}

/// What is denoted, as a right side, argument or return value for the type of this number.
#[tactic(auto, unfolding(crate::specs::Uses::right_value))]
pub fn right_value(
    alloc: Global,
    types: &Types,
    ty: TyId,
    denoted: Checked<Denoted>,
) -> Result<Checked<Boxed<TypedExpr>>, AllocError>
    ensures { IfOk result (λ v. v ≡ right_value types.now ty denoted) }
{
    let is_null = is_null(&denoted);
    let inside = lies_inside(types, &denoted);
    match valued(alloc, types, denoted)? {
        Err(rules) => Ok(Err(rules)),
        Ok(e) => given(alloc, types, ty, is_null, inside, e),
    }
}

/// An expression as a right side, argument or return value for the type of this number.
#[tactic(auto, unfolding(crate::specs::Uses::right_side))]
pub fn right_side(
    alloc: Global,
    scope: &Scope,
    ty: TyId,
    e: &Expr,
) -> Result<Checked<Boxed<TypedExpr>>, AllocError>
    ensures { IfOk result (λ v. v ≡ right_side scope.now ty (expression e.now)) }
{
    let denoted = denoted(alloc, scope, e)?;
    right_value(alloc, &scope.types, ty, denoted)
}

#[tactic(auto, unfolding(crate::specs::Uses::targeted))]
fn targeted(types: &Types, has_form: bool, denoted: Checked<Denoted>) -> Checked<Assigned>
    ensures { result ≡ targeted types.now has_form denoted }
{
    match denoted {
        Err(rules) => Err(unplaced(has_form, rules)),
        Ok(Denoted::Local(number, ty)) => Ok(Assigned::Local(number, ty)),
        Ok(Denoted::Place(place, _)) => match element_of(type_at(types, place.get().ty)) {
            Some(_) => Err(Rules::only(Rule::NotPlace)),
            None => Ok(Assigned::Place(place)),
        },
        Ok(_) => Err(Rules::only(Rule::NotPlace)),
    }
}

/// An expression as the left side of an assignment, with a place that isn't an array.
#[tactic(auto, unfolding(crate::specs::Uses::left_side))]
pub fn left_side(alloc: Global, scope: &Scope, e: &Expr) -> Result<Checked<Assigned>, AllocError>
    ensures { IfOk result (λ t. t ≡ left_side scope.now (expression e.now)) }
{
    let has_form = has_form(scope, e);
    let denoted = denoted(alloc, scope, e)?;
    Ok(targeted(&scope.types, has_form, denoted))
}
