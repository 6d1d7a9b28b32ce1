//! Expressions.

ghost use Rattle.std.specs.Prelude.{◌≡◌, ◌<◌, suc, IfOk};
ghost use Rattle.c_ast.specs.Trees.{expression};
ghost use Rattle.c_parse_expr.specs.Reads.{Gives};
ghost use Rattle.c_parse_expr.specs.Reading as reading;
ghost use Rattle.c_parse_expr.specs.Steps.{step_seen, branches_seen};

use crate::error::ReadError;
use crate::tokens::{
    access, expect, expect_keyword, first, is_mark, name, operator, refusal, sees, sees_access,
    sees_keyword, sees_operator, sees_unary, syntax, unary_operator,
};
use crate::types::{begins_type, type_name};
use c_ast::expr::{Access, BinaryOperator, Expr};
use c_ast::token::{Keyword, Mark, Token};
use lu_base::Name;
use sqlite_items::Boxed;
use std::alloc::{AllocError, Global};

/// How many constructs may be open, operators a chain may have, and steps a postfix.
pub const LIMIT: usize = 64;

/// A step of a postfix.
#[derive(Drop)]
pub enum Step {
    Within(Boxed<Expr>),
    Of(Access, Name),
}

/// A number, character or name, and the text after it.
#[tactic(auto, using(c_ast::proofs::Views::views), unfolding(crate::specs::Reading::atom))]
fn atom(alloc: Global, tokens: &[Token]) -> Result<(Boxed<Expr>, &[Token]), ReadError>
    ensures { Gives (λ x. (expression x.0, x.1.now)) result (reading.atom tokens.now) }
{
    match first(tokens) {
        Some((Token::Number(n), rest)) => Ok((Boxed::new(alloc, Expr::Number(*n))?, rest)),
        Some((Token::Character(c), rest)) => Ok((Boxed::new(alloc, Expr::Character(*c))?, rest)),
        Some((Token::Identifier(x), rest)) => {
            let name = x.copy(alloc)?;
            Ok((Boxed::new(alloc, Expr::Name(name))?, rest))
        }
        _ => Err(syntax()),
    }
}

fn sees_atom(tokens: &[Token]) -> bool
    ensures { result ≡ reading.sees_one reading.pick_atom tokens.now }
{
    match first(tokens) {
        Some((Token::Number(_) | Token::Character(_) | Token::Identifier(_), _)) => true,
        _ => false,
    }
}

/// Whether an expression begins here.
pub fn begins(tokens: &[Token]) -> bool
    ensures { result ≡ reading.begins tokens.now }
{
    sees(Mark::LeftParen, tokens)
        || sees_keyword(Keyword::Sizeof, tokens)
        || sees_atom(tokens)
        || sees_unary(tokens)
}

fn sees_cast(tokens: &[Token]) -> bool
    ensures { result ≡ reading.sees_cast tokens.now }
{
    match first(tokens) {
        Some((token, rest)) => is_mark(Mark::LeftParen, token) && begins_type(rest),
        None => false,
    }
}

#[tactic(auto, using(c_ast::proofs::Views::views), unfolding(crate::specs::Reading::size_of))]
fn size_of(alloc: Global, tokens: &[Token]) -> Result<(Boxed<Expr>, &[Token]), ReadError>
    ensures { Gives (λ x. (expression x.0, x.1.now)) result (reading.size_of tokens.now) }
{
    let tokens = expect_keyword(Keyword::Sizeof, tokens)?;
    let tokens = expect(Mark::LeftParen, tokens)?;
    let (ty, tokens) = type_name(alloc, tokens)?;
    let tokens = expect(Mark::RightParen, tokens)?;
    Ok((Boxed::new(alloc, Expr::SizeOf(ty))?, tokens))
}

#[tactic(auto, using(c_ast::proofs::Views::views))]
fn stepped(alloc: Global, base: Boxed<Expr>, step: Step) -> Result<Boxed<Expr>, AllocError>
    ensures { IfOk result (λ e. expression e ≡ reading.join_step (expression base) (step_seen step)) }
{
    Boxed::new(
        alloc,
        match step {
            Step::Within(index) => Expr::Index(base, index),
            Step::Of(access, name) => Expr::Member(base, access, name),
        },
    )
}

#[tactic(auto, using(c_ast::proofs::Views::views))]
fn binary(
    alloc: Global,
    operator: BinaryOperator,
    a: Boxed<Expr>,
    b: Boxed<Expr>,
) -> Result<Boxed<Expr>, AllocError>
    ensures { IfOk result (λ e. expression e ≡ reading.join_link (expression a) (operator, expression b)) }
{
    Boxed::new(alloc, Expr::Binary(operator, a, b))
}

#[tactic(auto, using(c_ast::proofs::Views::views))]
fn conditional(
    alloc: Global,
    condition: Boxed<Expr>,
    branches: Option<(Boxed<Expr>, Boxed<Expr>)>,
) -> Result<Boxed<Expr>, AllocError>
    ensures { IfOk result (λ e. expression e ≡ reading.conditional (expression condition) (branches_seen branches)) }
{
    match branches {
        Some((a, b)) => Boxed::new(alloc, Expr::Conditional(condition, a, b)),
        None => Ok(condition),
    }
}

#[cycle(expr)]
#[tactic(auto, using(c_ast::proofs::Views::views), unfolding(crate::specs::Reading::group))]
fn group(alloc: Global, tokens: &[Token], room: usize) -> Result<(Boxed<Expr>, &[Token]), ReadError>
    ensures { Gives (λ x. (expression x.0, x.1.now)) result (reading.group (reading.expr room) tokens.now) }
{
    let tokens = expect(Mark::LeftParen, tokens)?;
    let (inner, tokens) = expr(alloc, tokens, room)?;
    let tokens = expect(Mark::RightParen, tokens)?;
    Ok((Boxed::new(alloc, Expr::Group(inner))?, tokens))
}

#[cycle(expr)]
#[tactic(auto, unfolding(crate::specs::Reading::prim))]
fn prim(alloc: Global, tokens: &[Token], room: usize) -> Result<(Boxed<Expr>, &[Token]), ReadError>
    ensures { Gives (λ x. (expression x.0, x.1.now)) result (reading.prim (reading.expr room) tokens.now) }
{
    if sees(Mark::LeftParen, tokens) {
        group(alloc, tokens, room)
    } else if sees_keyword(Keyword::Sizeof, tokens) {
        size_of(alloc, tokens)
    } else {
        atom(alloc, tokens)
    }
}

#[cycle(expr)]
#[tactic(auto, unfolding(crate::specs::Reading::index))]
fn index(alloc: Global, tokens: &[Token], room: usize) -> Result<(Step, &[Token]), ReadError>
    ensures { Gives (λ x. (step_seen x.0, x.1.now)) result (reading.index (reading.expr room) tokens.now) }
{
    let tokens = expect(Mark::LeftBracket, tokens)?;
    let (inner, tokens) = expr(alloc, tokens, room)?;
    let tokens = expect(Mark::RightBracket, tokens)?;
    Ok((Step::Within(inner), tokens))
}

#[tactic(auto, unfolding(crate::specs::Reading::member))]
fn member(alloc: Global, tokens: &[Token]) -> Result<(Step, &[Token]), ReadError>
    ensures { Gives (λ x. (step_seen x.0, x.1.now)) result (reading.member tokens.now) }
{
    let (access, tokens) = access(tokens)?;
    let (name, tokens) = name(tokens)?;
    Ok((Step::Of(access, name.copy(alloc)?), tokens))
}

#[cycle(expr)]
#[tactic(auto, unfolding(crate::specs::Reading::step))]
fn read_step(alloc: Global, tokens: &[Token], room: usize) -> Result<(Step, &[Token]), ReadError>
    ensures { Gives (λ x. (step_seen x.0, x.1.now)) result (reading.step (reading.expr room) tokens.now) }
{
    if sees(Mark::LeftBracket, tokens) {
        index(alloc, tokens, room)
    } else {
        member(alloc, tokens)
    }
}

fn more_steps(tokens: &[Token]) -> bool
    ensures { result ≡ reading.more_steps tokens.now }
{
    sees(Mark::LeftBracket, tokens) || sees_access(tokens)
}

#[cycle(expr)]
fn steps(
    alloc: Global,
    first: Boxed<Expr>,
    tokens: &[Token],
    room: usize,
) -> Result<(Boxed<Expr>, &[Token]), ReadError>
    ensures { Gives (λ x. (expression x.0, x.1.now)) result (reading.steps (reading.expr room) (expression first) tokens.now) }
{
    let mut base = first;
    let mut tokens = tokens;
    let mut left = LIMIT;
    'steps: while more_steps(tokens) {
        if left == 0 {
            return Err(refusal(true));
        }
        left -= 1;
        let (step, rest) = read_step(alloc, tokens, room)?;
        base = stepped(alloc, base, step)?;
        tokens = rest;
    }
    Ok((base, tokens))
}

#[cycle(expr)]
#[tactic(auto, unfolding(crate::specs::Reading::postfix))]
fn postfix(
    alloc: Global,
    tokens: &[Token],
    room: usize,
) -> Result<(Boxed<Expr>, &[Token]), ReadError>
    ensures { Gives (λ x. (expression x.0, x.1.now)) result (reading.postfix (reading.expr room) tokens.now) }
{
    let (first, tokens) = prim(alloc, tokens, room)?;
    steps(alloc, first, tokens, room)
}

#[cycle(expr)]
#[tactic(auto, using(c_ast::proofs::Views::views), unfolding(crate::specs::Reading::prefixed))]
fn prefixed(
    alloc: Global,
    tokens: &[Token],
    room: usize,
) -> Result<(Boxed<Expr>, &[Token]), ReadError>
    ensures { Gives (λ x. (expression x.0, x.1.now)) result (reading.prefixed (reading.unary room) tokens.now) }
{
    let (operator, tokens) = unary_operator(tokens)?;
    let (operand, tokens) = unary(alloc, tokens, room)?;
    Ok((Boxed::new(alloc, Expr::Unary(operator, operand))?, tokens))
}

#[cycle(expr)]
#[tactic(auto, using(c_ast::proofs::Views::views), unfolding(crate::specs::Reading::cast))]
fn cast(alloc: Global, tokens: &[Token], room: usize) -> Result<(Boxed<Expr>, &[Token]), ReadError>
    ensures { Gives (λ x. (expression x.0, x.1.now)) result (reading.cast (reading.unary room) tokens.now) }
{
    let tokens = expect(Mark::LeftParen, tokens)?;
    let (ty, tokens) = type_name(alloc, tokens)?;
    let tokens = expect(Mark::RightParen, tokens)?;
    let (operand, tokens) = unary(alloc, tokens, room)?;
    Ok((Boxed::new(alloc, Expr::Cast(ty, operand))?, tokens))
}

#[cycle(expr)]
#[tactic(auto, unfolding(crate::specs::Reading::unary_by))]
fn unary_by(
    alloc: Global,
    tokens: &[Token],
    room: usize,
) -> Result<(Boxed<Expr>, &[Token]), ReadError>
    ensures { Gives (λ x. (expression x.0, x.1.now)) result (reading.unary_by (reading.unary room) (reading.expr room) tokens.now) }
{
    if sees_unary(tokens) {
        prefixed(alloc, tokens, room)
    } else if sees_cast(tokens) {
        cast(alloc, tokens, room)
    } else {
        postfix(alloc, tokens, room)
    }
}

/// What may stand before `=`, at a place where `room` more constructs may be open and then one.
#[cycle(expr)]
pub fn unary(
    alloc: Global,
    tokens: &[Token],
    room: usize,
) -> Result<(Boxed<Expr>, &[Token]), ReadError>
    ensures { Gives (λ x. (expression x.0, x.1.now)) result (reading.unary room tokens.now) }
{
    if room == 0 {
        return Err(refusal(begins(tokens)));
    }
    unary_by(alloc, tokens, room - 1)
}

#[cycle(expr)]
#[tactic(auto, unfolding(crate::specs::Reading::link))]
fn link(
    alloc: Global,
    tokens: &[Token],
    room: usize,
    level: u8,
) -> Result<(BinaryOperator, Boxed<Expr>, &[Token]), ReadError>
    requires { level < 10 }
    ensures { Gives (λ x. ((x.0, expression x.1), x.2.now)) result (reading.link (suc (suc level)) (reading.levels level (reading.unary room)) tokens.now) }
{
    let (operator, tokens) = operator(level + 2, tokens)?;
    let (operand, tokens) = levels(alloc, tokens, room, level)?;
    Ok((operator, operand, tokens))
}

#[cycle(expr)]
fn links(
    alloc: Global,
    first: Boxed<Expr>,
    tokens: &[Token],
    room: usize,
    below: u8,
) -> Result<(Boxed<Expr>, &[Token]), ReadError>
    requires { below < 10 }
    ensures { Gives (λ x. (expression x.0, x.1.now)) result (reading.links (suc (suc below)) (reading.levels below (reading.unary room)) (expression first) tokens.now) }
{
    let mut base = first;
    let mut tokens = tokens;
    let mut left = LIMIT;
    'links: while sees_operator(below + 2, tokens) {
        if left == 0 {
            return Err(refusal(true));
        }
        left -= 1;
        let (operator, operand, rest) = link(alloc, tokens, room, below)?;
        base = binary(alloc, operator, base, operand)?;
        tokens = rest;
    }
    Ok((base, tokens))
}

/// A chain over the levels below, and these.
#[cycle(expr)]
#[tactic(auto, unfolding(crate::specs::Reading::chain))]
fn chain(
    alloc: Global,
    tokens: &[Token],
    room: usize,
    below: u8,
) -> Result<(Boxed<Expr>, &[Token]), ReadError>
    requires { below < 10 }
    ensures { Gives (λ x. (expression x.0, x.1.now)) result (reading.chain (suc (suc below)) (reading.levels below (reading.unary room)) tokens.now) }
{
    let (first, tokens) = levels(alloc, tokens, room, below)?;
    links(alloc, first, tokens, room, below)
}

#[cycle(expr)]
fn levels(
    alloc: Global,
    tokens: &[Token],
    room: usize,
    count: u8,
) -> Result<(Boxed<Expr>, &[Token]), ReadError>
    requires { count < 11 }
    ensures { Gives (λ x. (expression x.0, x.1.now)) result (reading.levels count (reading.unary room) tokens.now) }
{
    if count == 0 {
        unary(alloc, tokens, room)
    } else {
        chain(alloc, tokens, room, count - 1)
    }
}

#[cycle(expr)]
#[tactic(auto, unfolding(crate::specs::Reading::branches))]
fn branches(
    alloc: Global,
    tokens: &[Token],
    room: usize,
) -> Result<(Boxed<Expr>, Boxed<Expr>, &[Token]), ReadError>
    ensures { Gives (λ x. ((expression x.0, expression x.1), x.2.now)) result (reading.branches (reading.expr room) tokens.now) }
{
    let tokens = expect(Mark::Question, tokens)?;
    let (a, tokens) = expr(alloc, tokens, room)?;
    let tokens = expect(Mark::Colon, tokens)?;
    let (b, tokens) = expr(alloc, tokens, room)?;
    Ok((a, b, tokens))
}

#[cycle(expr)]
#[tactic(auto, unfolding(crate::specs::Reading::branches_if_any))]
fn branches_if_any(
    alloc: Global,
    tokens: &[Token],
    room: usize,
) -> Result<(Option<(Boxed<Expr>, Boxed<Expr>)>, &[Token]), ReadError>
    ensures { Gives (λ x. (branches_seen x.0, x.1.now)) result (reading.branches_if_any (reading.expr room) tokens.now) }
{
    if sees(Mark::Question, tokens) {
        let (a, b, tokens) = branches(alloc, tokens, room)?;
        Ok((Some((a, b)), tokens))
    } else {
        Ok((None, tokens))
    }
}

#[cycle(expr)]
#[tactic(auto, unfolding(crate::specs::Reading::whole))]
fn whole(alloc: Global, tokens: &[Token], room: usize) -> Result<(Boxed<Expr>, &[Token]), ReadError>
    ensures { Gives (λ x. (expression x.0, x.1.now)) result (reading.whole (reading.expr room) (reading.levels 10 (reading.unary room)) tokens.now) }
{
    let (condition, tokens) = levels(alloc, tokens, room, 10)?;
    let (branches, tokens) = branches_if_any(alloc, tokens, room)?;
    Ok((conditional(alloc, condition, branches)?, tokens))
}

/// An expression, at a place where `room` more constructs may be open and then one.
#[cycle(expr)]
pub fn expr(
    alloc: Global,
    tokens: &[Token],
    room: usize,
) -> Result<(Boxed<Expr>, &[Token]), ReadError>
    ensures { Gives (λ x. (expression x.0, x.1.now)) result (reading.expr room tokens.now) }
{
    if room == 0 {
        return Err(refusal(begins(tokens)));
    }
    whole(alloc, tokens, room - 1)
}
