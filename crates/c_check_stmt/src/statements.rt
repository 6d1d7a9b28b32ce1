// Statements in order, judged behind those before them.

ghost use Rattle.std.specs.Prelude.{◌≡◌, IfOk, [], Ok, true};
ghost use Rattle.c_ast.specs.Trees.{expression, expression_if_any, setting_if_any, statement, statements};
ghost use Rattle.c_check_scope.specs.Rules.{both};
ghost use Rattle.c_check_expr.specs.Uses as uses;
ghost use Rattle.c_check_stmt.specs.Simple as parts;
ghost use Rattle.c_check_stmt.specs.Statements as spec;

use crate::making::{
    Head, made_block, made_for, made_head, made_if, made_while, one_more, with_else,
};
use crate::simple::{
    assignment, boxed, break_off, called, condition_if_any, go_on, local, returned, setting_list,
};
use crate::state::{Frame, State};
use c_ast::expr::Expr;
use c_ast::stmt::{Simple, Stmt};
use c_check_expr::uses::condition;
use c_check_scope::checked::{Checked, both};
use c_check_scope::scope::Scope;
use sqlite_items::{Boxed, Items};
use src_tree::expr::TypedExpr;
use src_tree::stmt::TypedStmt;
use std::alloc::{AllocError, Global};

/// A statement, inside a loop or not.
#[cycle(statement)]
#[tactic(auto, using(c_ast::proofs::Views::views))]
fn typed_statement(
    alloc: Global,
    frame: Frame,
    is_inside: bool,
    state: &mut State,
    stmt: &Stmt,
) -> Result<Checked<Boxed<TypedStmt>>, AllocError>
    ensures typed { IfOk result (λ s. s ≡ spec.typed_statement frame is_inside state.old (statement stmt.now)) }
    ensures state { IfOk result (λ _. state.new ≡ spec.after frame state.old (statement stmt.now)) }
{
    match stmt {
        Stmt::Block(list) => block(alloc, frame, is_inside, state, list.as_slice()),
        Stmt::Empty => boxed(alloc, Ok(TypedStmt::Empty)),
        Stmt::Local(param, initial) => local(alloc, frame, state, param, initial),
        Stmt::Assign(place, rhs) => assignment(alloc, frame, state, place.get(), rhs),
        Stmt::Call(callee, args) => called(alloc, frame, state, callee.get(), args.as_slice()),
        Stmt::If(e, then) => if_then(alloc, frame, is_inside, state, then.get(), e.get()),
        Stmt::IfElse(e, then, otherwise) => {
            let front = front(alloc, frame, is_inside, state, then.get(), e.get())?;
            or_else(alloc, frame, is_inside, state, otherwise.get(), front)
        }
        Stmt::While(e, body) => while_loop(alloc, frame, state, body.get(), e.get()),
        Stmt::For(first, e, step, body) => {
            for_loop(alloc, frame, state, first, e, step, body.get())
        }
        Stmt::Break => break_off(alloc, is_inside),
        Stmt::Continue => go_on(alloc, is_inside),
        Stmt::Return(rhs) => returned(alloc, frame, state, rhs),
    }
}

/// Statements in order.
#[cycle(statement)]
pub fn typed_statements(
    alloc: Global,
    frame: Frame,
    is_inside: bool,
    state: &mut State,
    list: &[Stmt],
) -> Result<Checked<Items<TypedStmt>>, AllocError>
    ensures typed { IfOk result (λ typed. typed ≡ spec.typed_statements frame is_inside state.old (Ok []) (statements list.now)) }
    ensures state { IfOk result (λ _. state.new ≡ spec.after_all frame state.old (statements list.now)) }
{
    let mut done: Checked<Items<TypedStmt>> = Ok(Items::new(alloc));
    for stmt in list {
        let next = typed_statement(alloc, frame, is_inside, state, stmt)?;
        done = one_more(done, next)?;
    }
    Ok(done)
}

#[cycle(statement)]
fn block(
    alloc: Global,
    frame: Frame,
    is_inside: bool,
    state: &mut State,
    list: &[Stmt],
) -> Result<Checked<Boxed<TypedStmt>>, AllocError>
    ensures typed { IfOk result (λ s. s ≡ spec.made_block (spec.typed_statements frame is_inside state.old (Ok []) (statements list.now))) }
    ensures state { IfOk result (λ _. state.new ≡ spec.after_all frame state.old (statements list.now)) }
{
    let list = typed_statements(alloc, frame, is_inside, state, list)?;
    made_block(alloc, list)
}

#[cycle(statement)]
fn if_then(
    alloc: Global,
    frame: Frame,
    is_inside: bool,
    state: &mut State,
    then: &Stmt,
    e: &Expr,
) -> Result<Checked<Boxed<TypedStmt>>, AllocError>
    ensures typed { IfOk result (λ s. s ≡ spec.made_if (uses.condition state.old.scope (expression e.now)) (spec.typed_statement frame is_inside state.old (statement then.now))) }
    ensures state { IfOk result (λ _. state.new ≡ spec.after frame state.old (statement then.now)) }
{
    let e = condition(alloc, &state.scope, e)?;
    let then = typed_statement(alloc, frame, is_inside, state, then)?;
    made_if(alloc, e, then)
}

/// What stands in front of an `else`.
#[cycle(statement)]
fn front(
    alloc: Global,
    frame: Frame,
    is_inside: bool,
    state: &mut State,
    then: &Stmt,
    e: &Expr,
) -> Result<Checked<(Boxed<TypedExpr>, Boxed<TypedStmt>)>, AllocError>
    ensures typed { IfOk result (λ v. v ≡ both (uses.condition state.old.scope (expression e.now)) (spec.typed_statement frame is_inside state.old (statement then.now))) }
    ensures state { IfOk result (λ _. state.new ≡ spec.after frame state.old (statement then.now)) }
{
    let e = condition(alloc, &state.scope, e)?;
    let then = typed_statement(alloc, frame, is_inside, state, then)?;
    Ok(both(e, then))
}

/// An `else` behind what stands in front of it.
#[cycle(statement)]
fn or_else(
    alloc: Global,
    frame: Frame,
    is_inside: bool,
    state: &mut State,
    otherwise: &Stmt,
    front: Checked<(Boxed<TypedExpr>, Boxed<TypedStmt>)>,
) -> Result<Checked<Boxed<TypedStmt>>, AllocError>
    ensures typed { IfOk result (λ s. s ≡ spec.with_else front (spec.typed_statement frame is_inside state.old (statement otherwise.now))) }
    ensures state { IfOk result (λ _. state.new ≡ spec.after frame state.old (statement otherwise.now)) }
{
    let otherwise = typed_statement(alloc, frame, is_inside, state, otherwise)?;
    with_else(alloc, front, otherwise)
}

#[cycle(statement)]
fn while_loop(
    alloc: Global,
    frame: Frame,
    state: &mut State,
    body: &Stmt,
    e: &Expr,
) -> Result<Checked<Boxed<TypedStmt>>, AllocError>
    ensures typed { IfOk result (λ s. s ≡ spec.made_while (uses.condition state.old.scope (expression e.now)) (spec.typed_statement frame true state.old (statement body.now))) }
    ensures state { IfOk result (λ _. state.new ≡ spec.after frame state.old (statement body.now)) }
{
    let e = condition(alloc, &state.scope, e)?;
    let body = typed_statement(alloc, frame, true, state, body)?;
    made_while(alloc, e, body)
}

#[cycle(statement)]
fn for_loop(
    alloc: Global,
    frame: Frame,
    state: &mut State,
    first: &Option<Simple>,
    e: &Option<Boxed<Expr>>,
    step: &Option<Simple>,
    body: &Stmt,
) -> Result<Checked<Boxed<TypedStmt>>, AllocError>
    ensures typed { IfOk result (λ s. s ≡ spec.made_for (spec.made_head (parts.setting_list state.old.scope (setting_if_any first.now)) (parts.condition_if_any state.old.scope (expression_if_any e.now)) (parts.setting_list state.old.scope (setting_if_any step.now))) (spec.typed_statement frame true state.old (statement body.now))) }
    ensures state { IfOk result (λ _. state.new ≡ spec.after frame state.old (statement body.now)) }
{
    let head = head(alloc, &state.scope, first, e, step)?;
    let body = typed_statement(alloc, frame, true, state, body)?;
    made_for(alloc, head, body)
}

fn head(
    alloc: Global,
    scope: &Scope,
    first: &Option<Simple>,
    e: &Option<Boxed<Expr>>,
    step: &Option<Simple>,
) -> Result<Checked<Head>, AllocError>
    ensures { IfOk result (λ h. h ≡ spec.made_head (parts.setting_list scope.now (setting_if_any first.now)) (parts.condition_if_any scope.now (expression_if_any e.now)) (parts.setting_list scope.now (setting_if_any step.now))) }
{
    let first = setting_list(alloc, scope, first)?;
    let e = condition_if_any(alloc, scope, e)?;
    let step = setting_list(alloc, scope, step)?;
    Ok(made_head(first, e, step))
}
