//! Initialisers.

ghost use Rattle.std.specs.Prelude.{◌≡◌, length};
ghost use Rattle.c_ast.specs.Trees.{initializer, initializer_list, initializer_if_any};
ghost use Rattle.c_parse_expr.specs.Reads.{Gives, climb, snoc, one};
ghost use Rattle.c_parse_expr.specs.Reading as reading;
ghost use Rattle.c_parse.specs.Declarations as declarations;

use c_ast::decl::Init;
use c_ast::token::{Mark, Token};
use c_parse_expr::error::ReadError;
use c_parse_expr::expr::{LIMIT, begins, expr};
use c_parse_expr::tokens::{expect, first, is_mark, refusal, sees, syntax};
use sqlite_items::{Boxed, Items};
use std::alloc::Global;

fn sees_text(tokens: &[Token]) -> bool
    ensures { result ≡ reading.sees_one declarations.pick_text tokens.now }
{
    match first(tokens) {
        Some((Token::Text(_), _)) => true,
        _ => false,
    }
}

fn begins_init(tokens: &[Token]) -> bool
    ensures { result ≡ declarations.begins_init tokens.now }
{
    sees(Mark::LeftBrace, tokens) || sees_text(tokens) || begins(tokens)
}

/// Whether a comma comes next behind which an initialiser is to come.
fn sees_next(tokens: &[Token]) -> bool
    ensures { result ≡ declarations.sees_next tokens.now }
{
    match first(tokens) {
        Some((token, rest)) => is_mark(Mark::Comma, token) && !sees(Mark::RightBrace, rest),
        None => false,
    }
}

#[tactic(auto, using(c_ast::proofs::Views::views), unfolding(crate::specs::Declarations::init_text))]
fn init_text(alloc: Global, tokens: &[Token]) -> Result<(Boxed<Init>, &[Token]), ReadError>
    ensures { Gives (λ x. (initializer x.0, x.1.now)) result (declarations.init_text tokens.now) }
{
    match first(tokens) {
        Some((Token::Text(bytes), rest)) => {
            let bytes = bytes.copy(alloc)?;
            Ok((Boxed::new(alloc, Init::Text(bytes))?, rest))
        }
        _ => Err(syntax()),
    }
}

#[cycle(init)]
#[tactic(auto, unfolding(crate::specs::Declarations::next_init))]
fn next_init(
    alloc: Global,
    tokens: &[Token],
    room: usize,
) -> Result<(Boxed<Init>, &[Token]), ReadError>
    ensures { Gives (λ x. (initializer x.0, x.1.now)) result (declarations.next_init (declarations.init room) tokens.now) }
{
    let tokens = expect(Mark::Comma, tokens)?;
    init(alloc, tokens, room)
}

#[cycle(init)]
fn more_inits(
    alloc: Global,
    first: Items<Init>,
    tokens: &[Token],
    room: usize,
) -> Result<(Items<Init>, &[Token]), ReadError>
    ensures { Gives (λ x. (initializer_list x.0, x.1.now)) result (climb declarations.sees_next (declarations.next_init (declarations.init room)) snoc (length tokens.now) (initializer_list first) tokens.now) }
{
    let mut list = first;
    let mut tokens = tokens;
    'commas: while sees_next(tokens) {
        let (item, rest) = next_init(alloc, tokens, room)?;
        list.push(item.into_inner())?;
        tokens = rest;
    }
    Ok((list, tokens))
}

#[cycle(init)]
#[tactic(auto, unfolding(crate::specs::Declarations::inits))]
fn inits(alloc: Global, tokens: &[Token], room: usize) -> Result<(Items<Init>, &[Token]), ReadError>
    ensures { Gives (λ x. (initializer_list x.0, x.1.now)) result (declarations.inits (declarations.init room) tokens.now) }
{
    let (first, tokens) = init(alloc, tokens, room)?;
    let mut list = Items::new(alloc);
    list.push(first.into_inner())?;
    more_inits(alloc, list, tokens, room)
}

#[tactic(auto, unfolding(crate::specs::Declarations::last_comma))]
fn last_comma(tokens: &[Token]) -> Result<(bool, &[Token]), ReadError>
    ensures { Gives (λ x. (x.0, x.1.now)) result (declarations.last_comma tokens.now) }
{
    if sees(Mark::Comma, tokens) {
        let tokens = expect(Mark::Comma, tokens)?;
        Ok((true, tokens))
    } else {
        Ok((false, tokens))
    }
}

#[cycle(init)]
#[tactic(auto, using(c_ast::proofs::Views::views, c_ast::proofs::Views::initializers_listed), unfolding(crate::specs::Declarations::init_braces))]
fn init_braces(
    alloc: Global,
    tokens: &[Token],
    room: usize,
) -> Result<(Boxed<Init>, &[Token]), ReadError>
    ensures { Gives (λ x. (initializer x.0, x.1.now)) result (declarations.init_braces (declarations.init room) tokens.now) }
{
    let tokens = expect(Mark::LeftBrace, tokens)?;
    let (list, tokens) = inits(alloc, tokens, room)?;
    let (comma, tokens) = last_comma(tokens)?;
    let tokens = expect(Mark::RightBrace, tokens)?;
    Ok((Boxed::new(alloc, Init::List(list, comma))?, tokens))
}

#[cycle(init)]
#[tactic(auto, using(c_ast::proofs::Views::views), unfolding(crate::specs::Declarations::init_by))]
fn init_by(
    alloc: Global,
    tokens: &[Token],
    room: usize,
) -> Result<(Boxed<Init>, &[Token]), ReadError>
    ensures { Gives (λ x. (initializer x.0, x.1.now)) result (declarations.init_by (reading.expr room) (declarations.init room) tokens.now) }
{
    if sees(Mark::LeftBrace, tokens) {
        init_braces(alloc, tokens, room)
    } else if sees_text(tokens) {
        init_text(alloc, tokens)
    } else {
        let (value, tokens) = expr(alloc, tokens, room)?;
        Ok((Boxed::new(alloc, Init::Value(value))?, tokens))
    }
}

/// An initialiser, at a place where `room` more constructs may be open and then one.
#[cycle(init)]
fn init(alloc: Global, tokens: &[Token], room: usize) -> Result<(Boxed<Init>, &[Token]), ReadError>
    ensures { Gives (λ x. (initializer x.0, x.1.now)) result (declarations.init room tokens.now) }
{
    if room == 0 {
        return Err(refusal(begins_init(tokens)));
    }
    init_by(alloc, tokens, room - 1)
}

#[tactic(auto, unfolding(crate::specs::Declarations::initial_value))]
fn initial_value(alloc: Global, tokens: &[Token]) -> Result<(Boxed<Init>, &[Token]), ReadError>
    ensures { Gives (λ x. (initializer x.0, x.1.now)) result (declarations.initial_value tokens.now) }
{
    let tokens = expect(Mark::Assign, tokens)?;
    init(alloc, tokens, LIMIT)
}

/// `=` and an initialiser, or nothing.
#[tactic(auto, unfolding(crate::specs::Declarations::initial))]
pub fn initial(
    alloc: Global,
    tokens: &[Token],
) -> Result<(Option<Boxed<Init>>, &[Token]), ReadError>
    ensures { Gives (λ x. (initializer_if_any x.0, x.1.now)) result (declarations.initial tokens.now) }
{
    if sees(Mark::Assign, tokens) {
        let (value, tokens) = initial_value(alloc, tokens)?;
        Ok((Some(value), tokens))
    } else {
        Ok((None, tokens))
    }
}
