// Statements made of their typed parts.

ghost use Rattle.std.specs.Prelude.{◌≡◌, IfOk};
ghost use Rattle.c_check_stmt.specs.Statements as spec;

use crate::simple::{boxed, single};
use c_check_scope::checked::{Checked, both};
use sqlite_items::{Boxed, Items};
use src_tree::expr::TypedExpr;
use src_tree::stmt::TypedStmt;
use std::alloc::{AllocError, Global};

/// What stands between the parentheses of a `for`.
#[derive(Drop)]
pub struct Head {
    pub first: Items<TypedStmt>,
    pub test: Option<Boxed<TypedExpr>>,
    pub step: Items<TypedStmt>,
}

#[tactic(auto, unfolding(crate::specs::Statements::made_block))]
pub fn made_block(
    alloc: Global,
    body: Checked<Items<TypedStmt>>,
) -> Result<Checked<Boxed<TypedStmt>>, AllocError>
    ensures { IfOk result (λ s. s ≡ spec.made_block body) }
{
    match body {
        Err(rules) => Ok(Err(rules)),
        Ok(body) => boxed(alloc, Ok(TypedStmt::Block(body))),
    }
}

#[tactic(auto, unfolding(crate::specs::Statements::made_if))]
pub fn made_if(
    alloc: Global,
    e: Checked<Boxed<TypedExpr>>,
    then: Checked<Boxed<TypedStmt>>,
) -> Result<Checked<Boxed<TypedStmt>>, AllocError>
    ensures { IfOk result (λ s. s ≡ spec.made_if e then) }
{
    match both(e, then) {
        Err(rules) => Ok(Err(rules)),
        Ok((e, then)) => boxed(
            alloc,
            Ok(TypedStmt::If(e.into_inner(), then, Items::new(alloc))),
        ),
    }
}

/// A condition and a statement with the statement of the `else`.
#[tactic(auto, unfolding(crate::specs::Statements::with_else))]
pub fn with_else(
    alloc: Global,
    front: Checked<(Boxed<TypedExpr>, Boxed<TypedStmt>)>,
    otherwise: Checked<Boxed<TypedStmt>>,
) -> Result<Checked<Boxed<TypedStmt>>, AllocError>
    ensures { IfOk result (λ s. s ≡ spec.with_else front otherwise) }
{
    match both(front, otherwise) {
        Err(rules) => Ok(Err(rules)),
        Ok(((e, then), otherwise)) => {
            let otherwise = single(alloc, otherwise)?;
            boxed(alloc, Ok(TypedStmt::If(e.into_inner(), then, otherwise)))
        }
    }
}

#[tactic(auto, unfolding(crate::specs::Statements::made_while))]
pub fn made_while(
    alloc: Global,
    e: Checked<Boxed<TypedExpr>>,
    body: Checked<Boxed<TypedStmt>>,
) -> Result<Checked<Boxed<TypedStmt>>, AllocError>
    ensures { IfOk result (λ s. s ≡ spec.made_while e body) }
{
    match both(e, body) {
        Err(rules) => Ok(Err(rules)),
        Ok((e, body)) => boxed(alloc, Ok(TypedStmt::While(e.into_inner(), body))),
    }
}

#[tactic(auto, unfolding(crate::specs::Statements::with_step))]
fn with_step(
    front: Checked<(Items<TypedStmt>, Option<Boxed<TypedExpr>>)>,
    step: Checked<Items<TypedStmt>>,
) -> Checked<Head>
    ensures { result ≡ spec.with_step front step }
{
    match both(front, step) {
        Err(rules) => Err(rules),
        Ok(((first, test), step)) => Ok(Head { first, test, step }),
    }
}

pub fn made_head(
    first: Checked<Items<TypedStmt>>,
    e: Checked<Option<Boxed<TypedExpr>>>,
    step: Checked<Items<TypedStmt>>,
) -> Checked<Head>
    ensures { result ≡ spec.made_head first e step }
{
    with_step(both(first, e), step)
}

fn unboxed(e: Option<Boxed<TypedExpr>>) -> Option<TypedExpr>
    ensures { result ≡ e }
{
    match e {
        None => None,
        Some(e) => Some(e.into_inner()),
    }
}

#[tactic(auto, unfolding(crate::specs::Statements::made_for))]
pub fn made_for(
    alloc: Global,
    head: Checked<Head>,
    body: Checked<Boxed<TypedStmt>>,
) -> Result<Checked<Boxed<TypedStmt>>, AllocError>
    ensures { IfOk result (λ s. s ≡ spec.made_for head body) }
{
    match both(head, body) {
        Err(rules) => Ok(Err(rules)),
        Ok((head, body)) => boxed(
            alloc,
            Ok(TypedStmt::For(head.first, unboxed(head.test), head.step, body)),
        ),
    }
}

/// One more statement, or the rules that are broken.
#[tactic(auto, unfolding(crate::specs::Statements::one_more))]
pub fn one_more(
    done: Checked<Items<TypedStmt>>,
    next: Checked<Boxed<TypedStmt>>,
) -> Result<Checked<Items<TypedStmt>>, AllocError>
    ensures { IfOk result (λ list. list ≡ spec.one_more done next) }
{
    match both(done, next) {
        Err(rules) => Ok(Err(rules)),
        Ok((mut done, next)) => {
            done.push(next.into_inner())?;
            Ok(Ok(done))
        }
    }
}
