// Copies of statements.

ghost use Rattle.std.specs.Prelude.{◌≡◌, IfOk};

use crate::copy_expr::{copy_expr, copy_exprs, copy_place};
use crate::expr::TypedExpr;
use crate::stmt::{Call, Callee, Rhs, TypedStmt};
use lu_base::Memory;
use sqlite_items::{Boxed, Items};
use std::alloc::Global;

fn copy_callee(alloc: Global, callee: &Callee) -> Result<Callee, Memory>
    ensures { IfOk result (λ copy. copy ≡ callee.now) }
{
    match callee {
        Callee::Function(f) => Ok(Callee::Function(*f)),
        Callee::Pointer(e) => Ok(Callee::Pointer(copy_expr(alloc, e)?)),
        Callee::Send => Ok(Callee::Send),
        Callee::Malloc(site) => Ok(Callee::Malloc(*site)),
        Callee::Calloc(site) => Ok(Callee::Calloc(*site)),
        Callee::Free => Ok(Callee::Free),
        Callee::Panic => Ok(Callee::Panic),
    }
}

fn copy_call(alloc: Global, call: &Call) -> Result<Call, Memory>
    ensures { IfOk result (λ copy. copy ≡ call.now) }
{
    Ok(Call {
        callee: copy_callee(alloc, &call.callee)?,
        args: copy_exprs(alloc, call.args.as_slice())?,
    })
}

fn copy_rhs(alloc: Global, rhs: &Rhs) -> Result<Rhs, Memory>
    ensures { IfOk result (λ copy. copy ≡ rhs.now) }
{
    match rhs {
        Rhs::Value(e) => Ok(Rhs::Value(copy_expr(alloc, e)?)),
        Rhs::Call(call, ty) => Ok(Rhs::Call(copy_call(alloc, call)?, *ty)),
    }
}

fn copy_optional_rhs(alloc: Global, rhs: &Option<Rhs>) -> Result<Option<Rhs>, Memory>
    ensures { IfOk result (λ copy. copy ≡ rhs.now) }
{
    match rhs {
        None => Ok(None),
        Some(rhs) => Ok(Some(copy_rhs(alloc, rhs)?)),
    }
}

fn copy_condition(alloc: Global, e: &Option<TypedExpr>) -> Result<Option<TypedExpr>, Memory>
    ensures { IfOk result (λ copy. copy ≡ e.now) }
{
    match e {
        None => Ok(None),
        Some(e) => Ok(Some(copy_expr(alloc, e)?)),
    }
}

/// An equal statement.
#[cycle(copy_statement)]
pub fn copy_statement(alloc: Global, statement: &TypedStmt) -> Result<TypedStmt, Memory>
    ensures { IfOk result (λ copy. copy ≡ statement.now) }
{
    match statement {
        TypedStmt::Block(body) => Ok(TypedStmt::Block(copy_statements(alloc, body.as_slice())?)),
        TypedStmt::Empty => Ok(TypedStmt::Empty),
        TypedStmt::Declare(x, rhs) => Ok(TypedStmt::Declare(*x, copy_optional_rhs(alloc, rhs)?)),
        TypedStmt::SetLocal(x, rhs) => Ok(TypedStmt::SetLocal(*x, copy_rhs(alloc, rhs)?)),
        TypedStmt::Assign(to, rhs) => Ok(TypedStmt::Assign(
            copy_place(alloc, to)?,
            copy_rhs(alloc, rhs)?,
        )),
        TypedStmt::Call(call) => Ok(TypedStmt::Call(copy_call(alloc, call)?)),
        TypedStmt::If(e, then, otherwise) => Ok(TypedStmt::If(
            copy_expr(alloc, e)?,
            copy_boxed_statement(alloc, then)?,
            copy_statements(alloc, otherwise.as_slice())?,
        )),
        TypedStmt::While(e, body) => Ok(TypedStmt::While(
            copy_expr(alloc, e)?,
            copy_boxed_statement(alloc, body)?,
        )),
        TypedStmt::For(first, e, step, body) => Ok(TypedStmt::For(
            copy_statements(alloc, first.as_slice())?,
            copy_condition(alloc, e)?,
            copy_statements(alloc, step.as_slice())?,
            copy_boxed_statement(alloc, body)?,
        )),
        TypedStmt::Break => Ok(TypedStmt::Break),
        TypedStmt::Continue => Ok(TypedStmt::Continue),
        TypedStmt::Return(rhs) => Ok(TypedStmt::Return(copy_optional_rhs(alloc, rhs)?)),
    }
}

#[cycle(copy_statement)]
fn copy_boxed_statement(
    alloc: Global,
    statement: &Boxed<TypedStmt>,
) -> Result<Boxed<TypedStmt>, Memory>
    ensures { IfOk result (λ copy. copy ≡ statement.now) }
{
    Ok(Boxed::new(alloc, copy_statement(alloc, statement.get())?)?)
}

/// Equal statements.
#[cycle(copy_statement)]
pub fn copy_statements(alloc: Global, statements: &[TypedStmt]) -> Result<Items<TypedStmt>, Memory>
    ensures { IfOk result (λ copies. copies ≡ statements.now) }
{
    let mut copies = Items::new(alloc);
    for statement in statements {
        copies.push(copy_statement(alloc, statement)?)?;
    }
    Ok(copies)
}
