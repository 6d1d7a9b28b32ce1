//! Statements without a statement in them.

ghost use Rattle.std.specs.Prelude.{◌≡◌, length};
ghost use Rattle.c_ast.specs.Trees.{expression, expressions, right as right_seen, right_if_any, setting as setting_seen, statement};
ghost use Rattle.c_parse_expr.specs.Reads.{Gives, climb, snoc};
ghost use Rattle.c_parse_expr.specs.Reading as reading;
ghost use Rattle.c_parse.specs.Parameters.{params};
ghost use Rattle.c_parse.specs.Statements as statements;
ghost use Rattle.c_parse.specs.Views.{tail_seen, arguments_if_any};

use crate::param::param;
use c_ast::expr::Expr;
use c_ast::stmt::{RightSide, Simple, Stmt};
use c_ast::token::{Keyword, Mark, Token};
use c_parse_expr::error::ReadError;
use c_parse_expr::expr::{expr, unary};
use c_parse_expr::tokens::{expect, expect_keyword, sees, syntax};
use sqlite_items::{Boxed, Items};
use std::alloc::Global;

/// What follows a place or a callee.
#[derive(Drop)]
pub enum After {
    Assigned(RightSide),
    Called(Items<Expr>),
}

#[tactic(auto, unfolding(crate::specs::Statements::next_argument))]
fn next_argument(
    alloc: Global,
    tokens: &[Token],
    room: usize,
) -> Result<(Boxed<Expr>, &[Token]), ReadError>
    ensures { Gives (λ x. (expression x.0, x.1.now)) result (statements.next_argument (reading.expr room) tokens.now) }
{
    let tokens = expect(Mark::Comma, tokens)?;
    expr(alloc, tokens, room)
}

fn more_arguments(
    alloc: Global,
    first: Items<Expr>,
    tokens: &[Token],
    room: usize,
) -> Result<(Items<Expr>, &[Token]), ReadError>
    ensures { Gives (λ x. (expressions x.0, x.1.now)) result (climb (reading.sees Mark.Comma) (statements.next_argument (reading.expr room)) snoc (length tokens.now) (expressions first) tokens.now) }
{
    let mut list = first;
    let mut tokens = tokens;
    'commas: while sees(Mark::Comma, tokens) {
        let (argument, rest) = next_argument(alloc, tokens, room)?;
        list.push(argument.into_inner())?;
        tokens = rest;
    }
    Ok((list, tokens))
}

#[tactic(auto, unfolding(crate::specs::Statements::some_arguments))]
fn some_arguments(
    alloc: Global,
    tokens: &[Token],
    room: usize,
) -> Result<(Items<Expr>, &[Token]), ReadError>
    ensures { Gives (λ x. (expressions x.0, x.1.now)) result (statements.some_arguments (reading.expr room) tokens.now) }
{
    let (first, tokens) = expr(alloc, tokens, room)?;
    let mut list = Items::new(alloc);
    list.push(first.into_inner())?;
    more_arguments(alloc, list, tokens, room)
}

#[tactic(auto, unfolding(crate::specs::Statements::arguments))]
fn arguments(
    alloc: Global,
    tokens: &[Token],
    room: usize,
) -> Result<(Items<Expr>, &[Token]), ReadError>
    ensures { Gives (λ x. (expressions x.0, x.1.now)) result (statements.arguments (reading.expr room) tokens.now) }
{
    if sees(Mark::RightParen, tokens) {
        Ok((Items::new(alloc), tokens))
    } else {
        some_arguments(alloc, tokens, room)
    }
}

#[tactic(auto, unfolding(crate::specs::Statements::call))]
fn call(alloc: Global, tokens: &[Token], room: usize) -> Result<(Items<Expr>, &[Token]), ReadError>
    ensures { Gives (λ x. (expressions x.0, x.1.now)) result (statements.call (reading.expr room) tokens.now) }
{
    let tokens = expect(Mark::LeftParen, tokens)?;
    let (list, tokens) = arguments(alloc, tokens, room)?;
    let tokens = expect(Mark::RightParen, tokens)?;
    Ok((list, tokens))
}

#[tactic(auto, using(c_ast::proofs::Views::views))]
fn is_postfix(e: &Expr) -> bool
    ensures { result ≡ statements.is_postfix (expression e.now) }
{
    match e {
        Expr::Number(_) => true,
        Expr::Character(_) => true,
        Expr::Name(_) => true,
        Expr::Group(_) => true,
        Expr::SizeOf(_) => true,
        Expr::Index(_, _) => true,
        Expr::Member(_, _, _) => true,
        Expr::Unary(_, _) => false,
        Expr::Cast(_, _) => false,
        Expr::Binary(_, _, _) => false,
        Expr::Conditional(_, _, _) => false,
    }
}

fn calls(e: &Expr, tokens: &[Token]) -> bool
    ensures { result ≡ statements.calls (expression e.now) tokens.now }
{
    is_postfix(e) && sees(Mark::LeftParen, tokens)
}

#[tactic(auto, unfolding(crate::specs::Statements::call_if_any))]
fn call_if_any<'a>(
    alloc: Global,
    callee: &Expr,
    tokens: &'a [Token],
    room: usize,
) -> Result<(Option<Items<Expr>>, &'a [Token]), ReadError>
    ensures { Gives (λ x. (arguments_if_any x.0, x.1.now)) result (statements.call_if_any (reading.expr room) (expression callee.now) tokens.now) }
{
    if calls(callee, tokens) {
        let (list, tokens) = call(alloc, tokens, room)?;
        Ok((Some(list), tokens))
    } else {
        Ok((None, tokens))
    }
}

fn right_by(first: Boxed<Expr>, arguments: Option<Items<Expr>>) -> RightSide
    ensures { right_seen result ≡ statements.right_by (expression first) (arguments_if_any arguments) }
{
    match arguments {
        Some(list) => RightSide::Call(first, list),
        None => RightSide::Value(first),
    }
}

/// What may stand right of `=`.
#[tactic(auto, unfolding(crate::specs::Statements::right))]
fn right(alloc: Global, tokens: &[Token], room: usize) -> Result<(RightSide, &[Token]), ReadError>
    ensures { Gives (λ x. (right_seen x.0, x.1.now)) result (statements.right (reading.expr room) tokens.now) }
{
    let (first, tokens) = expr(alloc, tokens, room)?;
    let (list, tokens) = call_if_any(alloc, first.get(), tokens, room)?;
    Ok((right_by(first, list), tokens))
}

#[tactic(auto, unfolding(crate::specs::Statements::start_value))]
fn start_value(
    alloc: Global,
    tokens: &[Token],
    room: usize,
) -> Result<(RightSide, &[Token]), ReadError>
    ensures { Gives (λ x. (right_seen x.0, x.1.now)) result (statements.start_value (reading.expr room) tokens.now) }
{
    let tokens = expect(Mark::Assign, tokens)?;
    right(alloc, tokens, room)
}

#[tactic(auto, unfolding(crate::specs::Statements::start))]
fn start(
    alloc: Global,
    tokens: &[Token],
    room: usize,
) -> Result<(Option<RightSide>, &[Token]), ReadError>
    ensures { Gives (λ x. (right_if_any x.0, x.1.now)) result (statements.start (reading.expr room) tokens.now) }
{
    if sees(Mark::Assign, tokens) {
        let (value, tokens) = start_value(alloc, tokens, room)?;
        Ok((Some(value), tokens))
    } else {
        Ok((None, tokens))
    }
}

/// A local's declaration.
#[tactic(auto, using(c_ast::proofs::Views::views), unfolding(crate::specs::Statements::local))]
pub fn local(alloc: Global, tokens: &[Token], room: usize) -> Result<(Stmt, &[Token]), ReadError>
    ensures { Gives (λ x. (statement x.0, x.1.now)) result (statements.local (params room) (reading.expr room) tokens.now) }
{
    let (declared, tokens) = param(alloc, tokens, room)?;
    let (start, tokens) = start(alloc, tokens, room)?;
    let tokens = expect(Mark::Semicolon, tokens)?;
    Ok((Stmt::Local(declared, start), tokens))
}

/// An assignment without a semicolon.
#[tactic(auto, unfolding(crate::specs::Statements::setting))]
pub fn setting(
    alloc: Global,
    tokens: &[Token],
    room: usize,
) -> Result<(Simple, &[Token]), ReadError>
    ensures { Gives (λ x. (setting_seen x.0, x.1.now)) result (statements.setting (reading.unary room) (reading.expr room) tokens.now) }
{
    let (place, tokens) = unary(alloc, tokens, room)?;
    let tokens = expect(Mark::Assign, tokens)?;
    let (value, tokens) = expr(alloc, tokens, room)?;
    Ok((Simple { place, value }, tokens))
}

#[tactic(auto, unfolding(crate::specs::Statements::assigned))]
fn assigned(alloc: Global, tokens: &[Token], room: usize) -> Result<(After, &[Token]), ReadError>
    ensures { Gives (λ x. (tail_seen x.0, x.1.now)) result (statements.assigned (reading.expr room) tokens.now) }
{
    let tokens = expect(Mark::Assign, tokens)?;
    let (value, tokens) = right(alloc, tokens, room)?;
    let tokens = expect(Mark::Semicolon, tokens)?;
    Ok((After::Assigned(value), tokens))
}

#[tactic(auto, unfolding(crate::specs::Statements::called))]
fn called(alloc: Global, tokens: &[Token], room: usize) -> Result<(After, &[Token]), ReadError>
    ensures { Gives (λ x. (tail_seen x.0, x.1.now)) result (statements.called (reading.expr room) tokens.now) }
{
    let (list, tokens) = call(alloc, tokens, room)?;
    let tokens = expect(Mark::Semicolon, tokens)?;
    Ok((After::Called(list), tokens))
}

#[tactic(auto, unfolding(crate::specs::Statements::tail))]
fn tail<'a>(
    alloc: Global,
    first: &Expr,
    tokens: &'a [Token],
    room: usize,
) -> Result<(After, &'a [Token]), ReadError>
    ensures { Gives (λ x. (tail_seen x.0, x.1.now)) result (statements.tail (reading.expr room) (expression first.now) tokens.now) }
{
    if sees(Mark::Assign, tokens) {
        assigned(alloc, tokens, room)
    } else if is_postfix(first) {
        called(alloc, tokens, room)
    } else {
        Err(syntax())
    }
}

#[tactic(auto, using(c_ast::proofs::Views::views))]
fn stmt_by(first: Boxed<Expr>, after: After) -> Stmt
    ensures { statement result ≡ statements.statement_by (expression first) (tail_seen after) }
{
    match after {
        After::Assigned(value) => Stmt::Assign(first, value),
        After::Called(list) => Stmt::Call(first, list),
    }
}

/// An assignment or a call.
#[tactic(auto, unfolding(crate::specs::Statements::simple))]
pub fn simple(alloc: Global, tokens: &[Token], room: usize) -> Result<(Stmt, &[Token]), ReadError>
    ensures { Gives (λ x. (statement x.0, x.1.now)) result (statements.simple (reading.unary room) (reading.expr room) tokens.now) }
{
    let (first, tokens) = unary(alloc, tokens, room)?;
    let (after, tokens) = tail(alloc, first.get(), tokens, room)?;
    Ok((stmt_by(first, after), tokens))
}

fn value(
    alloc: Global,
    tokens: &[Token],
    room: usize,
) -> Result<(Option<RightSide>, &[Token]), ReadError>
    ensures { Gives (λ x. (right_if_any x.0, x.1.now)) result (Rattle.c_parse_expr.specs.Reads.unless (reading.sees Mark.Semicolon) (statements.right (reading.expr room)) tokens.now) }
{
    if sees(Mark::Semicolon, tokens) {
        Ok((None, tokens))
    } else {
        let (value, tokens) = right(alloc, tokens, room)?;
        Ok((Some(value), tokens))
    }
}

/// A `return`.
#[tactic(auto, using(c_ast::proofs::Views::views), unfolding(crate::specs::Statements::leave))]
pub fn leave(alloc: Global, tokens: &[Token], room: usize) -> Result<(Stmt, &[Token]), ReadError>
    ensures { Gives (λ x. (statement x.0, x.1.now)) result (statements.leave (reading.expr room) tokens.now) }
{
    let tokens = expect_keyword(Keyword::Return, tokens)?;
    let (value, tokens) = value(alloc, tokens, room)?;
    let tokens = expect(Mark::Semicolon, tokens)?;
    Ok((Stmt::Return(value), tokens))
}

/// A `break`.
#[tactic(auto, using(c_ast::proofs::Views::views), unfolding(crate::specs::Statements::break_off))]
pub fn break_off(tokens: &[Token]) -> Result<(Stmt, &[Token]), ReadError>
    ensures { Gives (λ x. (statement x.0, x.1.now)) result (statements.break_off tokens.now) }
{
    let tokens = expect_keyword(Keyword::Break, tokens)?;
    let tokens = expect(Mark::Semicolon, tokens)?;
    Ok((Stmt::Break, tokens))
}

/// A `continue`.
#[tactic(auto, using(c_ast::proofs::Views::views), unfolding(crate::specs::Statements::go_on))]
pub fn go_on(tokens: &[Token]) -> Result<(Stmt, &[Token]), ReadError>
    ensures { Gives (λ x. (statement x.0, x.1.now)) result (statements.go_on tokens.now) }
{
    let tokens = expect_keyword(Keyword::Continue, tokens)?;
    let tokens = expect(Mark::Semicolon, tokens)?;
    Ok((Stmt::Continue, tokens))
}

/// The empty statement.
#[tactic(auto, using(c_ast::proofs::Views::views), unfolding(crate::specs::Statements::empty))]
pub fn empty(tokens: &[Token]) -> Result<(Stmt, &[Token]), ReadError>
    ensures { Gives (λ x. (statement x.0, x.1.now)) result (statements.empty tokens.now) }
{
    let tokens = expect(Mark::Semicolon, tokens)?;
    Ok((Stmt::Empty, tokens))
}

/// A condition in parentheses.
#[tactic(auto, unfolding(crate::specs::Statements::condition))]
pub fn condition(
    alloc: Global,
    tokens: &[Token],
    room: usize,
) -> Result<(Boxed<Expr>, &[Token]), ReadError>
    ensures { Gives (λ x. (expression x.0, x.1.now)) result (statements.condition (reading.expr room) tokens.now) }
{
    let tokens = expect(Mark::LeftParen, tokens)?;
    let (condition, tokens) = expr(alloc, tokens, room)?;
    let tokens = expect(Mark::RightParen, tokens)?;
    Ok((condition, tokens))
}
