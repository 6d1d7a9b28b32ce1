//! Statements.

ghost use Rattle.std.specs.Prelude.{◌≡◌};
ghost use Rattle.c_ast.specs.Trees.{expression, expression_if_any, setting_if_any as setting_seen, statement, statement_if_any, statement_list, statements as statements_seen};
ghost use Rattle.c_parse_expr.specs.Reads.{Gives, unless};
ghost use Rattle.c_parse_expr.specs.Reading as reading;
ghost use Rattle.c_parse.specs.Parameters.{params};
ghost use Rattle.c_parse.specs.Statements as statements;

use crate::parts::{break_off, condition, empty, go_on, leave, local, setting, simple};
use c_ast::expr::Expr;
use c_ast::stmt::{Simple, Stmt};
use c_ast::token::{Keyword, Mark, Token};
use c_parse_expr::error::ReadError;
use c_parse_expr::expr::{begins, expr};
use c_parse_expr::tokens::{expect, expect_keyword, first, is_mark, refusal, sees, sees_keyword};
use c_parse_expr::types::begins_type;
use sqlite_items::{Boxed, Items};
use std::alloc::Global;

/// Whether something stands before the closing brace.
pub fn more_items(tokens: &[Token]) -> bool
    ensures { result ≡ statements.more_items tokens.now }
{
    match first(tokens) {
        Some((token, _)) => !is_mark(Mark::RightBrace, token),
        None => false,
    }
}

fn begins_keyword(tokens: &[Token]) -> bool
    ensures { result ≡ statements.begins_keyword tokens.now }
{
    sees_keyword(Keyword::If, tokens)
        || sees_keyword(Keyword::While, tokens)
        || sees_keyword(Keyword::For, tokens)
        || sees_keyword(Keyword::Break, tokens)
        || sees_keyword(Keyword::Continue, tokens)
        || sees_keyword(Keyword::Return, tokens)
}

fn begins_statement(tokens: &[Token]) -> bool
    ensures { result ≡ statements.begins_statement tokens.now }
{
    sees(Mark::LeftBrace, tokens)
        || sees(Mark::Semicolon, tokens)
        || begins_type(tokens)
        || begins_keyword(tokens)
        || begins(tokens)
}

#[cycle(stmt)]
fn body(alloc: Global, tokens: &[Token], room: usize) -> Result<(Items<Stmt>, &[Token]), ReadError>
    ensures { Gives (λ x. (statement_list x.0, x.1.now)) result (statements.body (statements.stmt room) tokens.now) }
{
    let mut list = Items::new(alloc);
    let mut tokens = tokens;
    'stmts: while more_items(tokens) {
        let (item, rest) = stmt(alloc, tokens, room)?;
        list.push(item)?;
        tokens = rest;
    }
    Ok((list, tokens))
}

#[cycle(stmt)]
#[tactic(auto, using(c_ast::proofs::Views::statements_listed), unfolding(crate::specs::Statements::braces))]
fn braces(
    alloc: Global,
    tokens: &[Token],
    room: usize,
) -> Result<(Items<Stmt>, &[Token]), ReadError>
    ensures { Gives (λ x. (statements_seen x.0, x.1.now)) result (statements.braces (statements.stmt room) tokens.now) }
{
    let tokens = expect(Mark::LeftBrace, tokens)?;
    let (list, tokens) = body(alloc, tokens, room)?;
    let tokens = expect(Mark::RightBrace, tokens)?;
    Ok((list, tokens))
}

/// A block, at a place where `room` more constructs may be open and then one.
#[cycle(stmt)]
pub fn block(
    alloc: Global,
    tokens: &[Token],
    room: usize,
) -> Result<(Items<Stmt>, &[Token]), ReadError>
    ensures { Gives (λ x. (statements_seen x.0, x.1.now)) result (statements.block room tokens.now) }
{
    if room == 0 {
        return Err(refusal(sees(Mark::LeftBrace, tokens)));
    }
    braces(alloc, tokens, room - 1)
}

#[cycle(stmt)]
fn boxed(alloc: Global, tokens: &[Token], room: usize) -> Result<(Boxed<Stmt>, &[Token]), ReadError>
    ensures { Gives (λ x. (statement x.0, x.1.now)) result (statements.stmt room tokens.now) }
{
    let (stmt, tokens) = stmt(alloc, tokens, room)?;
    Ok((Boxed::new(alloc, stmt)?, tokens))
}

#[cycle(stmt)]
#[tactic(auto, unfolding(crate::specs::Statements::otherwise))]
fn otherwise(
    alloc: Global,
    tokens: &[Token],
    room: usize,
) -> Result<(Boxed<Stmt>, &[Token]), ReadError>
    ensures { Gives (λ x. (statement x.0, x.1.now)) result (statements.otherwise (statements.stmt room) tokens.now) }
{
    let tokens = expect_keyword(Keyword::Else, tokens)?;
    boxed(alloc, tokens, room)
}

#[cycle(stmt)]
#[tactic(auto, unfolding(crate::specs::Statements::otherwise_if_any))]
fn otherwise_if_any(
    alloc: Global,
    tokens: &[Token],
    room: usize,
) -> Result<(Option<Boxed<Stmt>>, &[Token]), ReadError>
    ensures { Gives (λ x. (statement_if_any x.0, x.1.now)) result (statements.otherwise_if_any (statements.stmt room) tokens.now) }
{
    if sees_keyword(Keyword::Else, tokens) {
        let (other, tokens) = otherwise(alloc, tokens, room)?;
        Ok((Some(other), tokens))
    } else {
        Ok((None, tokens))
    }
}

#[tactic(auto, using(c_ast::proofs::Views::views))]
fn if_by(condition: Boxed<Expr>, then: Boxed<Stmt>, other: Option<Boxed<Stmt>>) -> Stmt
    ensures { statement result ≡ statements.if_by (expression condition) (statement then) (statement_if_any other) }
{
    match other {
        Some(other) => Stmt::IfElse(condition, then, other),
        None => Stmt::If(condition, then),
    }
}

#[cycle(stmt)]
#[tactic(auto, unfolding(crate::specs::Statements::branch))]
fn branch(alloc: Global, tokens: &[Token], room: usize) -> Result<(Stmt, &[Token]), ReadError>
    ensures { Gives (λ x. (statement x.0, x.1.now)) result (statements.branch (reading.expr room) (statements.stmt room) tokens.now) }
{
    let tokens = expect_keyword(Keyword::If, tokens)?;
    let (condition, tokens) = condition(alloc, tokens, room)?;
    let (then, tokens) = boxed(alloc, tokens, room)?;
    let (other, tokens) = otherwise_if_any(alloc, tokens, room)?;
    Ok((if_by(condition, then, other), tokens))
}

#[cycle(stmt)]
#[tactic(auto, using(c_ast::proofs::Views::views), unfolding(crate::specs::Statements::repeat))]
fn while_loop(alloc: Global, tokens: &[Token], room: usize) -> Result<(Stmt, &[Token]), ReadError>
    ensures { Gives (λ x. (statement x.0, x.1.now)) result (statements.repeat (reading.expr room) (statements.stmt room) tokens.now) }
{
    let tokens = expect_keyword(Keyword::While, tokens)?;
    let (condition, tokens) = condition(alloc, tokens, room)?;
    let (body, tokens) = boxed(alloc, tokens, room)?;
    Ok((Stmt::While(condition, body), tokens))
}

fn setting_unless(
    alloc: Global,
    end: Mark,
    tokens: &[Token],
    room: usize,
) -> Result<(Option<Simple>, &[Token]), ReadError>
    ensures { Gives (λ x. (setting_seen x.0, x.1.now)) result (unless (reading.sees end) (statements.setting (reading.unary room) (reading.expr room)) tokens.now) }
{
    if sees(end, tokens) {
        Ok((None, tokens))
    } else {
        let (found, tokens) = setting(alloc, tokens, room)?;
        Ok((Some(found), tokens))
    }
}

fn expr_unless(
    alloc: Global,
    end: Mark,
    tokens: &[Token],
    room: usize,
) -> Result<(Option<Boxed<Expr>>, &[Token]), ReadError>
    ensures { Gives (λ x. (expression_if_any x.0, x.1.now)) result (unless (reading.sees end) (reading.expr room) tokens.now) }
{
    if sees(end, tokens) {
        Ok((None, tokens))
    } else {
        let (found, tokens) = expr(alloc, tokens, room)?;
        Ok((Some(found), tokens))
    }
}

#[tactic(auto, unfolding(crate::specs::Statements::head))]
fn head(
    alloc: Global,
    tokens: &[Token],
    room: usize,
) -> Result<
    (
        Option<Simple>,
        Option<Boxed<Expr>>,
        Option<Simple>,
        &[Token],
    ),
    ReadError,
>
    ensures { Gives (λ x. ((setting_seen x.0, (expression_if_any x.1, setting_seen x.2)), x.3.now)) result (statements.head (reading.unary room) (reading.expr room) tokens.now) }
{
    let tokens = expect(Mark::LeftParen, tokens)?;
    let (initial, tokens) = setting_unless(alloc, Mark::Semicolon, tokens, room)?;
    let tokens = expect(Mark::Semicolon, tokens)?;
    let (condition, tokens) = expr_unless(alloc, Mark::Semicolon, tokens, room)?;
    let tokens = expect(Mark::Semicolon, tokens)?;
    let (next, tokens) = setting_unless(alloc, Mark::RightParen, tokens, room)?;
    let tokens = expect(Mark::RightParen, tokens)?;
    Ok((initial, condition, next, tokens))
}

#[cycle(stmt)]
#[tactic(auto, using(c_ast::proofs::Views::views), unfolding(crate::specs::Statements::counted))]
fn for_loop(alloc: Global, tokens: &[Token], room: usize) -> Result<(Stmt, &[Token]), ReadError>
    ensures { Gives (λ x. (statement x.0, x.1.now)) result (statements.counted (reading.unary room) (reading.expr room) (statements.stmt room) tokens.now) }
{
    let tokens = expect_keyword(Keyword::For, tokens)?;
    let (initial, condition, next, tokens) = head(alloc, tokens, room)?;
    let (body, tokens) = boxed(alloc, tokens, room)?;
    Ok((Stmt::For(initial, condition, next, body), tokens))
}

#[cycle(stmt)]
#[tactic(auto, unfolding(crate::specs::Statements::by_keyword))]
fn by_keyword(alloc: Global, tokens: &[Token], room: usize) -> Result<(Stmt, &[Token]), ReadError>
    ensures { Gives (λ x. (statement x.0, x.1.now)) result (statements.by_keyword (reading.unary room) (reading.expr room) (statements.stmt room) tokens.now) }
{
    if sees_keyword(Keyword::If, tokens) {
        branch(alloc, tokens, room)
    } else if sees_keyword(Keyword::While, tokens) {
        while_loop(alloc, tokens, room)
    } else if sees_keyword(Keyword::For, tokens) {
        for_loop(alloc, tokens, room)
    } else if sees_keyword(Keyword::Break, tokens) {
        break_off(tokens)
    } else if sees_keyword(Keyword::Continue, tokens) {
        go_on(tokens)
    } else {
        leave(alloc, tokens, room)
    }
}

#[cycle(stmt)]
#[tactic(auto, using(c_ast::proofs::Views::views), unfolding(crate::specs::Statements::by_first))]
fn by_first(alloc: Global, tokens: &[Token], room: usize) -> Result<(Stmt, &[Token]), ReadError>
    ensures { Gives (λ x. (statement x.0, x.1.now)) result (statements.by_first (params room) (reading.unary room) (reading.expr room) (statements.block room) (statements.stmt room) tokens.now) }
{
    if sees(Mark::LeftBrace, tokens) {
        let (list, tokens) = block(alloc, tokens, room)?;
        Ok((Stmt::Block(list), tokens))
    } else if sees(Mark::Semicolon, tokens) {
        empty(tokens)
    } else if begins_type(tokens) {
        local(alloc, tokens, room)
    } else if begins_keyword(tokens) {
        by_keyword(alloc, tokens, room)
    } else {
        simple(alloc, tokens, room)
    }
}

/// A statement, at a place where `room` more constructs may be open and then one.
#[cycle(stmt)]
pub fn stmt(alloc: Global, tokens: &[Token], room: usize) -> Result<(Stmt, &[Token]), ReadError>
    ensures { Gives (λ x. (statement x.0, x.1.now)) result (statements.stmt room tokens.now) }
{
    if room == 0 {
        return Err(refusal(begins_statement(tokens)));
    }
    by_first(alloc, tokens, room - 1)
}
