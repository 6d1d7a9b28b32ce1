// Operators on values, casts and `?:`.

ghost use Rattle.std.specs.Prelude.{◌≡◌, IfOk};
ghost use Rattle.c_check_expr.specs.Operations.{promotion, inverted, work, operation_node, operated, cast, scalar, meet, conditional};

use crate::denoted::{Denoted, is_null};
use crate::values::{converted, node, operand, type_at, valued};
use c_ast::expr::BinaryOperator;
use c_check_scope::checked::{Checked, both};
use c_check_scope::conversions::casts;
use c_check_scope::kinds::is_scalar;
use c_check_scope::operand::{joined, promoted_type};
use c_check_scope::operation::{INT, Node, Operation, operation_of};
use c_check_scope::rule::Rule;
use c_check_scope::rules::Rules;
use c_check_scope::types::Types;
use c_types::TyId;
use sqlite_items::Boxed;
use src_tree::expr::{ExprKind, TypedExpr, UnaryOperator};
use std::alloc::{AllocError, Global};

/// The branches of a `?:` in one type.
#[derive(Drop)]
pub struct Branches {
    pub ty: TyId,
    pub yes: Boxed<TypedExpr>,
    pub no: Boxed<TypedExpr>,
}

/// A unary operator on an integer, which it promotes.
#[tactic(auto, unfolding(crate::specs::Operations::promotion))]
pub fn promotion(
    alloc: Global,
    types: &Types,
    operator: UnaryOperator,
    e: Checked<Denoted>,
) -> Result<Checked<Denoted>, AllocError>
    ensures { IfOk result (λ d. d ≡ promotion types.now operator e) }
{
    match valued(alloc, types, e)? {
        Err(rules) => Ok(Err(rules)),
        Ok(e) => match promoted_type(type_at(types, e.get().ty)) {
            None => Ok(Err(Rules::only(Rule::Operands))),
            Some(ty) => {
                let ty = types.number_of(ty);
                let e = converted(alloc, ty, e)?;
                Ok(Ok(Denoted::Value(node(alloc, ty, ExprKind::Unary(operator, e))?)))
            }
        },
    }
}

/// `! e`
#[tactic(auto, unfolding(crate::specs::Operations::inverted))]
pub fn inverted(
    alloc: Global,
    types: &Types,
    e: Checked<Denoted>,
) -> Result<Checked<Denoted>, AllocError>
    ensures { IfOk result (λ d. d ≡ inverted types.now e) }
{
    match valued(alloc, types, e)? {
        Err(rules) => Ok(Err(rules)),
        Ok(e) => {
            if is_scalar(type_at(types, e.get().ty)) {
                let kind = ExprKind::Unary(UnaryOperator::Not, e);
                Ok(Ok(Denoted::Value(node(alloc, types.number_of(INT), kind)?)))
            } else {
                Ok(Err(Rules::only(Rule::Operands)))
            }
        }
    }
}

#[tactic(auto, unfolding(crate::specs::Operations::work))]
fn work(
    alloc: Global,
    types: &Types,
    operation: Operation,
    a: Boxed<TypedExpr>,
    b: Boxed<TypedExpr>,
) -> Result<Boxed<TypedExpr>, AllocError>
    ensures { IfOk result (λ e. e ≡ work types.now operation a b) }
{
    let a = converted(alloc, types.number_of(operation.left), a)?;
    let b = converted(alloc, types.number_of(operation.right), b)?;
    let ty = types.number_of(operation.result);
    match operation.node {
        Node::Binary(operator) => node(alloc, ty, ExprKind::Binary(operator, a, b)),
        Node::Logical(operator) => node(alloc, ty, ExprKind::Logical(operator, a, b)),
    }
}

#[tactic(auto, unfolding(crate::specs::Operations::operation_node))]
fn operation_node(
    alloc: Global,
    types: &Types,
    operation: Option<Operation>,
    a: Boxed<TypedExpr>,
    b: Boxed<TypedExpr>,
) -> Result<Checked<Denoted>, AllocError>
    ensures { IfOk result (λ d. d ≡ operation_node types.now operation a b) }
{
    match operation {
        None => Ok(Err(Rules::only(Rule::Operands))),
        Some(operation) => Ok(Ok(Denoted::Value(work(alloc, types, operation, a, b)?))),
    }
}

/// A binary operator on two operands.
#[tactic(auto, unfolding(crate::specs::Operations::operated))]
pub fn operated(
    alloc: Global,
    types: &Types,
    operator: BinaryOperator,
    a: Checked<Denoted>,
    b: Checked<Denoted>,
) -> Result<Checked<Denoted>, AllocError>
    ensures { IfOk result (λ d. d ≡ operated types.now operator a b) }
{
    let left_null = is_null(&a);
    let right_null = is_null(&b);
    let a = valued(alloc, types, a)?;
    let b = valued(alloc, types, b)?;
    match both(a, b) {
        Err(rules) => Ok(Err(rules)),
        Ok((a, b)) => {
            let left = operand(types, a.get(), left_null);
            let right = operand(types, b.get(), right_null);
            operation_node(alloc, types, operation_of(operator, left, right), a, b)
        }
    }
}

/// `( type ) e`
#[tactic(auto, unfolding(crate::specs::Operations::cast))]
pub fn cast(
    alloc: Global,
    types: &Types,
    ty: Checked<TyId>,
    e: Checked<Denoted>,
) -> Result<Checked<Denoted>, AllocError>
    ensures { IfOk result (λ d. d ≡ cast types.now ty e) }
{
    let e = valued(alloc, types, e)?;
    match both(ty, e) {
        Err(rules) => Ok(Err(rules)),
        Ok((ty, e)) => {
            if casts(type_at(types, e.get().ty), type_at(types, ty)) {
                Ok(Ok(Denoted::Value(node(alloc, ty, ExprKind::Cast(e))?)))
            } else {
                Ok(Err(Rules::only(Rule::Cast)))
            }
        }
    }
}

/// A value that is a scalar, as conditions are.
#[tactic(auto, unfolding(crate::specs::Operations::scalar))]
pub fn scalar(types: &Types, e: Checked<Boxed<TypedExpr>>) -> Checked<Boxed<TypedExpr>>
    ensures { result ≡ scalar types.now e }
{
    match e {
        Err(rules) => Err(rules),
        Ok(e) => {
            if is_scalar(type_at(types, e.get().ty)) {
                Ok(e)
            } else {
                Err(Rules::only(Rule::Condition))
            }
        }
    }
}

#[tactic(auto, unfolding(crate::specs::Operations::meet))]
fn meet(
    alloc: Global,
    types: &Types,
    a: Checked<Denoted>,
    b: Checked<Denoted>,
) -> Result<Checked<Branches>, AllocError>
    ensures { IfOk result (λ d. d ≡ meet types.now a b) }
{
    let left_null = is_null(&a);
    let right_null = is_null(&b);
    let a = valued(alloc, types, a)?;
    let b = valued(alloc, types, b)?;
    match both(a, b) {
        Err(rules) => Ok(Err(rules)),
        Ok((a, b)) => {
            let left = operand(types, a.get(), left_null);
            let right = operand(types, b.get(), right_null);
            match joined(left, right) {
                None => Ok(Err(Rules::only(Rule::Operands))),
                Some(ty) => {
                    let ty = types.number_of(ty);
                    let yes = converted(alloc, ty, a)?;
                    let no = converted(alloc, ty, b)?;
                    Ok(Ok(Branches { ty, yes, no }))
                }
            }
        }
    }
}

/// `c ? a : b`
#[tactic(auto, unfolding(crate::specs::Operations::conditional))]
pub fn conditional(
    alloc: Global,
    types: &Types,
    c: Checked<Denoted>,
    a: Checked<Denoted>,
    b: Checked<Denoted>,
) -> Result<Checked<Denoted>, AllocError>
    ensures { IfOk result (λ d. d ≡ conditional types.now c a b) }
{
    let c = scalar(types, valued(alloc, types, c)?);
    let branches = meet(alloc, types, a, b)?;
    match both(c, branches) {
        Err(rules) => Ok(Err(rules)),
        Ok((c, Branches { ty, yes, no })) => Ok(Ok(Denoted::Value(node(
            alloc,
            ty,
            ExprKind::Conditional(c, yes, no),
        )?))),
    }
}
