// Statements that hold no other statement.

ghost use Rattle.std.specs.Prelude.{◌≡◌, ◌∷◌, [], IfOk};
ghost use Rattle.c_ast.specs.Trees.{parameter, expression, expressions, expression_if_any, right, right_if_any, setting, setting_if_any};
ghost use Rattle.c_check_stmt.specs.Rights as rights;
ghost use Rattle.c_check_stmt.specs.Variables as variables;
ghost use Rattle.c_check_stmt.specs.Simple as spec;
ghost use Rattle.c_check_expr.specs.declared.calls.Position.TheVariants as P;

use crate::rights::{invoked, right_for, right_if_any_for, value_for};
use crate::state::{Frame, State};
use crate::variables::{copied, declare, name_of, used_type};
use c_ast::expr::Expr;
use c_ast::stmt::{Param, RightSide, Simple};
use c_check_expr::calls::Position;
use c_check_expr::params::param_type;
use c_check_expr::uses::{Assigned, condition, left_side};
use c_check_scope::checked::{Checked, both};
use c_check_scope::rule::Rule;
use c_check_scope::rules::Rules;
use c_check_scope::scope::Scope;
use c_types::TyId;
use lu_base::Name;
use sqlite_items::{Boxed, Items};
use src_tree::expr::TypedExpr;
use src_tree::stmt::{Rhs, TypedStmt};
use std::alloc::{AllocError, Global};

/// A statement on the heap.
pub fn boxed(
    alloc: Global,
    stmt: Checked<TypedStmt>,
) -> Result<Checked<Boxed<TypedStmt>>, AllocError>
    ensures { IfOk result (λ s. s ≡ stmt) }
{
    match stmt {
        Err(rules) => Ok(Err(rules)),
        Ok(stmt) => Ok(Ok(Boxed::new(alloc, stmt)?)),
    }
}

/// A list of one statement.
pub fn single(alloc: Global, stmt: Boxed<TypedStmt>) -> Result<Items<TypedStmt>, AllocError>
    ensures { IfOk result (λ list. list ≡ stmt ∷ []) }
{
    let mut list = Items::new(alloc);
    list.push(stmt.into_inner())?;
    Ok(list)
}

fn declare_local(
    alloc: Global,
    state: &mut State,
    ty: Checked<TyId>,
    name: &Name,
) -> Result<Checked<u32>, AllocError>
    ensures number { IfOk result (λ number. number ≡ variables.declared state.old.scope ty name.now) }
    ensures state { IfOk result (λ _. state.new ≡ spec.with_local state.old name.now (variables.used_type state.old.scope.types ty)) }
{
    let used = used_type(&state.scope.types, &ty);
    let number = declare(alloc, &mut state.scope, ty, name)?;
    state.locals.push(used)?;
    Ok(number)
}

fn declaration(
    alloc: Global,
    initial: Checked<Option<Rhs>>,
    number: Checked<u32>,
) -> Result<Checked<Boxed<TypedStmt>>, AllocError>
    ensures { IfOk result (λ s. s ≡ spec.declaration initial number) }
{
    match both(initial, number) {
        Err(rules) => Ok(Err(rules)),
        Ok((initial, number)) => boxed(alloc, Ok(TypedStmt::Declare(number, initial))),
    }
}

/// A local, which is declared behind its initialiser.
#[tactic(auto, unfolding(crate::specs::Simple::local, crate::specs::Simple::after_local))]
pub fn local(
    alloc: Global,
    frame: Frame,
    state: &mut State,
    param: &Param,
    initial: &Option<RightSide>,
) -> Result<Checked<Boxed<TypedStmt>>, AllocError>
    ensures typed { IfOk result (λ s. s ≡ spec.local frame state.old (parameter param.now) (right_if_any initial.now)) }
    ensures state { IfOk result (λ _. state.new ≡ spec.after_local frame state.old (parameter param.now) (right_if_any initial.now)) }
{
    let ty = param_type(alloc, &state.scope, param)?;
    let wanted = copied(&ty);
    let initial = right_if_any_for(alloc, frame, state, Position::RightSide, wanted, initial)?;
    let number = declare_local(alloc, state, ty, name_of(param))?;
    declaration(alloc, initial, number)
}

#[tactic(auto, unfolding(crate::specs::Simple::target_type))]
fn target_type(left: &Checked<Assigned>) -> Checked<TyId>
    ensures { result ≡ spec.target_type left.now }
{
    match left {
        Err(rules) => Err(*rules),
        Ok(Assigned::Local(_, ty)) => Ok(*ty),
        Ok(Assigned::Place(place)) => Ok(place.get().ty),
    }
}

fn set(left: Assigned, rhs: Rhs) -> TypedStmt
    ensures { result ≡ spec.set left rhs }
{
    match left {
        Assigned::Local(number, _) => TypedStmt::SetLocal(number, rhs),
        Assigned::Place(place) => TypedStmt::Assign(place.into_inner(), rhs),
    }
}

#[tactic(auto, unfolding(crate::specs::Simple::assigned))]
fn assigned(
    alloc: Global,
    left: Checked<Assigned>,
    rhs: Checked<Rhs>,
) -> Result<Checked<Boxed<TypedStmt>>, AllocError>
    ensures { IfOk result (λ s. s ≡ spec.assigned left rhs) }
{
    match both(left, rhs) {
        Err(rules) => Ok(Err(rules)),
        Ok((left, rhs)) => boxed(alloc, Ok(set(left, rhs))),
    }
}

/// An assignment. Where the left side breaks a rule, the right side is judged alone.
#[tactic(auto, unfolding(crate::specs::Simple::assignment))]
pub fn assignment(
    alloc: Global,
    frame: Frame,
    state: &mut State,
    place: &Expr,
    rhs: &RightSide,
) -> Result<Checked<Boxed<TypedStmt>>, AllocError>
    ensures typed { IfOk result (λ s. s ≡ spec.assignment frame state.old (expression place.now) (right rhs.now)) }
    ensures state { IfOk result (λ _. state.new ≡ rights.after_right frame state.old P.RightSide (right rhs.now)) }
{
    let left = left_side(alloc, &state.scope, place)?;
    let ty = target_type(&left);
    let rhs = right_for(alloc, frame, state, Position::RightSide, ty, rhs)?;
    assigned(alloc, left, rhs)
}

/// A call, whose result is dropped.
#[tactic(auto, unfolding(crate::specs::Simple::called))]
pub fn called(
    alloc: Global,
    frame: Frame,
    state: &mut State,
    callee: &Expr,
    args: &[Expr],
) -> Result<Checked<Boxed<TypedStmt>>, AllocError>
    ensures typed { IfOk result (λ s. s ≡ spec.called frame state.old (expression callee.now) (expressions args.now)) }
    ensures state { IfOk result (λ _. state.new ≡ rights.after_call frame state.old P.Statement (expression callee.now) (expressions args.now)) }
{
    match invoked(alloc, frame, state, Position::Statement, callee, args)? {
        Err(rules) => Ok(Err(rules)),
        Ok(made) => boxed(alloc, Ok(TypedStmt::Call(made.call))),
    }
}

/// A `break`, which stands in a loop.
#[tactic(auto, unfolding(crate::specs::Simple::jump))]
pub fn break_off(alloc: Global, is_inside: bool) -> Result<Checked<Boxed<TypedStmt>>, AllocError>
    ensures { IfOk result (λ s. s ≡ spec.jump is_inside TypedStmt.Break) }
{
    if is_inside {
        boxed(alloc, Ok(TypedStmt::Break))
    } else {
        Ok(Err(Rules::only(Rule::OutsideLoop)))
    }
}

/// A `continue`, which stands in a loop.
#[tactic(auto, unfolding(crate::specs::Simple::jump))]
pub fn go_on(alloc: Global, is_inside: bool) -> Result<Checked<Boxed<TypedStmt>>, AllocError>
    ensures { IfOk result (λ s. s ≡ spec.jump is_inside TypedStmt.Continue) }
{
    if is_inside {
        boxed(alloc, Ok(TypedStmt::Continue))
    } else {
        Ok(Err(Rules::only(Rule::OutsideLoop)))
    }
}

#[tactic(auto, unfolding(crate::specs::Simple::result_type))]
fn result_type(result_ty: Option<TyId>) -> Checked<TyId>
    ensures { result ≡ spec.result_type result_ty }
{
    match result_ty {
        None => Err(Rules::only(Rule::Returned)),
        Some(ty) => Ok(ty),
    }
}

#[tactic(auto, unfolding(crate::specs::Simple::without_value))]
fn without_value(
    alloc: Global,
    result_ty: Option<TyId>,
) -> Result<Checked<Boxed<TypedStmt>>, AllocError>
    ensures { IfOk result (λ s. s ≡ spec.without_value result_ty) }
{
    match result_ty {
        None => boxed(alloc, Ok(TypedStmt::Return(None))),
        Some(_) => Ok(Err(Rules::only(Rule::Returned))),
    }
}

/// A `return`, with a value exactly where the function has a result.
#[tactic(auto, unfolding(crate::specs::Simple::returned, crate::specs::Rights::sites_if_any))]
pub fn returned(
    alloc: Global,
    frame: Frame,
    state: &mut State,
    rhs: &Option<RightSide>,
) -> Result<Checked<Boxed<TypedStmt>>, AllocError>
    ensures typed { IfOk result (λ s. s ≡ spec.returned frame state.old (right_if_any rhs.now)) }
    ensures state { IfOk result (λ _. state.new ≡ rights.after_if_any frame state.old P.Return (right_if_any rhs.now)) }
{
    match rhs {
        None => without_value(alloc, frame.result),
        Some(rhs) => {
            let ty = result_type(frame.result);
            match right_for(alloc, frame, state, Position::Return, ty, rhs)? {
                Err(rules) => Ok(Err(rules)),
                Ok(rhs) => boxed(alloc, Ok(TypedStmt::Return(Some(rhs)))),
            }
        }
    }
}

#[tactic(auto, unfolding(crate::specs::Simple::setting))]
fn setting(
    alloc: Global,
    scope: &Scope,
    simple: &Simple,
) -> Result<Checked<Boxed<TypedStmt>>, AllocError>
    ensures { IfOk result (λ s. s ≡ spec.setting scope.now (setting simple.now)) }
{
    let left = left_side(alloc, scope, simple.place.get())?;
    let ty = target_type(&left);
    let rhs = value_for(alloc, scope, ty, simple.value.get())?;
    assigned(alloc, left, rhs)
}

/// The assignment before a loop or after each turn, if there is one.
#[tactic(auto, unfolding(crate::specs::Simple::setting_list))]
pub fn setting_list(
    alloc: Global,
    scope: &Scope,
    simple: &Option<Simple>,
) -> Result<Checked<Items<TypedStmt>>, AllocError>
    ensures { IfOk result (λ list. list ≡ spec.setting_list scope.now (setting_if_any simple.now)) }
{
    match simple {
        None => Ok(Ok(Items::new(alloc))),
        Some(simple) => match setting(alloc, scope, simple)? {
            Err(rules) => Ok(Err(rules)),
            Ok(stmt) => Ok(Ok(single(alloc, stmt)?)),
        },
    }
}

/// A condition, if there is one.
#[tactic(auto, unfolding(crate::specs::Simple::condition_if_any))]
pub fn condition_if_any(
    alloc: Global,
    scope: &Scope,
    e: &Option<Boxed<Expr>>,
) -> Result<Checked<Option<Boxed<TypedExpr>>>, AllocError>
    ensures { IfOk result (λ c. c ≡ spec.condition_if_any scope.now (expression_if_any e.now)) }
{
    match e {
        None => Ok(Ok(None)),
        Some(e) => match condition(alloc, scope, e.get())? {
            Err(rules) => Ok(Err(rules)),
            Ok(e) => Ok(Ok(Some(e))),
        },
    }
}
