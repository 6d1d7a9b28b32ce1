// Calls and right sides, with the sites at which they allocate.

ghost use Rattle.std.specs.Prelude.{◌≡◌, IfOk};
ghost use Rattle.c_ast.specs.Trees.{expression, expressions, right, right_if_any};
ghost use Rattle.c_check_stmt.specs.Rights as spec;

use crate::state::{Frame, State, next_site};
use c_ast::expr::Expr;
use c_ast::stmt::RightSide;
use c_check_expr::calls::{Invocation, Position, call, call_value};
use c_check_expr::typing::denoted;
use c_check_expr::uses::right_side;
use c_check_expr::values::valued;
use c_check_scope::checked::{Checked, broken};
use c_check_scope::scope::Scope;
use c_check_scope::types::Types;
use c_types::TyId;
use sqlite_items::Items;
use src_tree::stmt::Rhs;
use std::alloc::{AllocError, Global};

#[tactic(auto, unfolding(crate::specs::Rights::and_site))]
fn add_site(sites: &mut Items<TyId>, made: &Checked<Invocation>) -> Result<(), AllocError>
    ensures { IfOk result (λ _. sites.new ≡ spec.and_site sites.old made.now) }
{
    match made {
        Err(_) => Ok(()),
        Ok(made) => match made.elem {
            None => Ok(()),
            Some(ty) => {
                sites.push(ty)?;
                Ok(())
            }
        },
    }
}

/// A call in a position, with the site at which it allocates, if it does.
#[tactic(auto, unfolding(crate::specs::Rights::invoked))]
pub fn invoked(
    alloc: Global,
    frame: Frame,
    state: &mut State,
    position: Position,
    callee: &Expr,
    args: &[Expr],
) -> Result<Checked<Invocation>, AllocError>
    ensures made { IfOk result (λ made. made ≡ spec.invoked frame state.old position (expression callee.now) (expressions args.now)) }
    ensures state { IfOk result (λ _. state.new ≡ spec.after_call frame state.old position (expression callee.now) (expressions args.now)) }
{
    let site = next_site(frame, state)?;
    let made = call(alloc, &state.scope, position, site, callee, args)?;
    add_site(&mut state.sites, &made)?;
    Ok(made)
}

/// A value for a type. Where that type breaks a rule, the value is judged alone.
#[tactic(auto, unfolding(crate::specs::Rights::value_for))]
pub fn value_for(
    alloc: Global,
    scope: &Scope,
    ty: Checked<TyId>,
    e: &Expr,
) -> Result<Checked<Rhs>, AllocError>
    ensures { IfOk result (λ rhs. rhs ≡ spec.value_for scope.now ty (expression e.now)) }
{
    match ty {
        Ok(ty) => match right_side(alloc, scope, ty, e)? {
            Err(rules) => Ok(Err(rules)),
            Ok(e) => Ok(Ok(Rhs::Value(e.into_inner()))),
        },
        Err(rules) => {
            let denoted = denoted(alloc, scope, e)?;
            let e = valued(alloc, &scope.types, denoted)?;
            Ok(Err(broken(rules, e)))
        }
    }
}

#[tactic(auto, unfolding(crate::specs::Rights::result_for))]
fn result_for(types: &Types, ty: Checked<TyId>, made: Checked<Invocation>) -> Checked<Rhs>
    ensures { result ≡ spec.result_for types.now ty made }
{
    match ty {
        Err(rules) => Err(broken(rules, made)),
        Ok(ty) => match made {
            Err(rules) => Err(rules),
            Ok(made) => match call_value(types, ty, made) {
                Err(rules) => Err(rules),
                Ok(made) => Ok(Rhs::Call(made.call, ty)),
            },
        },
    }
}

/// A right side for a type.
#[tactic(auto, unfolding(crate::specs::Rights::right_for, crate::specs::Rights::right_sites))]
pub fn right_for(
    alloc: Global,
    frame: Frame,
    state: &mut State,
    position: Position,
    ty: Checked<TyId>,
    rhs: &RightSide,
) -> Result<Checked<Rhs>, AllocError>
    ensures rhs { IfOk result (λ v. v ≡ spec.right_for frame state.old position ty (right rhs.now)) }
    ensures state { IfOk result (λ _. state.new ≡ spec.after_right frame state.old position (right rhs.now)) }
{
    match rhs {
        RightSide::Value(e) => value_for(alloc, &state.scope, ty, e.get()),
        RightSide::Call(callee, args) => {
            let made = invoked(alloc, frame, state, position, callee.get(), args.as_slice())?;
            Ok(result_for(&state.scope.types, ty, made))
        }
    }
}

/// A right side for a type, if there is one.
#[tactic(auto, unfolding(crate::specs::Rights::right_if_any_for, crate::specs::Rights::sites_if_any))]
pub fn right_if_any_for(
    alloc: Global,
    frame: Frame,
    state: &mut State,
    position: Position,
    ty: Checked<TyId>,
    rhs: &Option<RightSide>,
) -> Result<Checked<Option<Rhs>>, AllocError>
    ensures rhs { IfOk result (λ v. v ≡ spec.right_if_any_for frame state.old position ty (right_if_any rhs.now)) }
    ensures state { IfOk result (λ _. state.new ≡ spec.after_if_any frame state.old position (right_if_any rhs.now)) }
{
    match rhs {
        None => match ty {
            Err(rules) => Ok(Err(rules)),
            Ok(_) => Ok(Ok(None)),
        },
        Some(rhs) => match right_for(alloc, frame, state, position, ty, rhs)? {
            Err(rules) => Ok(Err(rules)),
            Ok(rhs) => Ok(Ok(Some(rhs))),
        },
    }
}
