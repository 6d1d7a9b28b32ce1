//! Fields, and what stands between a global's type and its initialiser.

ghost use Rattle.std.specs.Prelude.{◌≡◌};
ghost use Rattle.c_ast.specs.Trees.{parameters as parameters_seen, object, objects};
ghost use Rattle.c_parse_expr.specs.Reads.{Gives, one};
ghost use Rattle.c_parse.specs.Declarations as declarations;

use crate::param::params;
use crate::stmt::more_items;
use c_ast::decl::Named;
use c_ast::stmt::Param;
use c_ast::token::{Mark, Number, Token};
use c_ast::types::TypeName;
use c_parse_expr::error::ReadError;
use c_parse_expr::expr::LIMIT;
use c_parse_expr::tokens::{expect, first, name, sees, syntax};
use c_parse_expr::types::type_name;
use lu_base::Name;
use sqlite_items::Items;
use std::alloc::Global;

fn number(tokens: &[Token]) -> Result<(Number, &[Token]), ReadError>
    ensures { Gives (λ x. (x.0, x.1.now)) result (one declarations.pick_number tokens.now) }
{
    match first(tokens) {
        Some((Token::Number(n), rest)) => Ok((*n, rest)),
        _ => Err(syntax()),
    }
}

#[tactic(auto, unfolding(crate::specs::Declarations::array_length))]
fn array_length(tokens: &[Token]) -> Result<(Number, &[Token]), ReadError>
    ensures { Gives (λ x. (x.0, x.1.now)) result (declarations.array_length tokens.now) }
{
    let tokens = expect(Mark::LeftBracket, tokens)?;
    let (length, tokens) = number(tokens)?;
    let tokens = expect(Mark::RightBracket, tokens)?;
    Ok((length, tokens))
}

/// A length in brackets, or nothing.
#[tactic(auto, unfolding(crate::specs::Declarations::length_if_any))]
pub fn length_if_any(tokens: &[Token]) -> Result<(Option<Number>, &[Token]), ReadError>
    ensures { Gives (λ x. (x.0, x.1.now)) result (declarations.length_if_any tokens.now) }
{
    if sees(Mark::LeftBracket, tokens) {
        let (length, tokens) = array_length(tokens)?;
        Ok((Some(length), tokens))
    } else {
        Ok((None, tokens))
    }
}

/// Parameters in parentheses.
#[tactic(auto, unfolding(crate::specs::Declarations::signature))]
pub fn signature(alloc: Global, tokens: &[Token]) -> Result<(Items<Param>, &[Token]), ReadError>
    ensures { Gives (λ x. (parameters_seen x.0, x.1.now)) result (declarations.signature tokens.now) }
{
    let tokens = expect(Mark::LeftParen, tokens)?;
    let (list, tokens) = params(alloc, tokens, LIMIT)?;
    let tokens = expect(Mark::RightParen, tokens)?;
    Ok((list, tokens))
}

#[tactic(auto, unfolding(crate::specs::Declarations::sized))]
fn sized(tokens: &[Token]) -> Result<(&Name, Option<Number>, &[Token]), ReadError>
    ensures { Gives (λ x. ((x.0.now, x.1), x.2.now)) result (declarations.sized tokens.now) }
{
    let (name, tokens) = name(tokens)?;
    let (length, tokens) = length_if_any(tokens)?;
    Ok((name, length, tokens))
}

/// A pointer to a function: its name, length and parameters.
#[tactic(auto, unfolding(crate::specs::Declarations::pointer))]
pub fn pointer(
    alloc: Global,
    tokens: &[Token],
) -> Result<(&Name, Option<Number>, Items<Param>, &[Token]), ReadError>
    ensures { Gives (λ x. (((x.0.now, x.1), parameters_seen x.2), x.3.now)) result (declarations.pointer tokens.now) }
{
    let tokens = expect(Mark::LeftParen, tokens)?;
    let tokens = expect(Mark::Star, tokens)?;
    let (name, length, tokens) = sized(tokens)?;
    let tokens = expect(Mark::RightParen, tokens)?;
    let (list, tokens) = signature(alloc, tokens)?;
    Ok((name, length, list, tokens))
}

#[tactic(auto, unfolding(crate::specs::Declarations::field_rest))]
fn field_rest(alloc: Global, ty: TypeName, tokens: &[Token]) -> Result<(Named, &[Token]), ReadError>
    ensures { Gives (λ x. (object x.0, x.1.now)) result (declarations.field_rest ty tokens.now) }
{
    if sees(Mark::LeftParen, tokens) {
        let (name, length, list, tokens) = pointer(alloc, tokens)?;
        let name = name.copy(alloc)?;
        Ok((Named::Function(ty, name, length, list), tokens))
    } else {
        let (name, length, tokens) = sized(tokens)?;
        let name = name.copy(alloc)?;
        Ok((Named::Object(ty, name, length), tokens))
    }
}

#[tactic(auto, unfolding(crate::specs::Declarations::field))]
fn field(alloc: Global, tokens: &[Token]) -> Result<(Named, &[Token]), ReadError>
    ensures { Gives (λ x. (object x.0, x.1.now)) result (declarations.field tokens.now) }
{
    let (ty, tokens) = type_name(alloc, tokens)?;
    let (found, tokens) = field_rest(alloc, ty, tokens)?;
    let tokens = expect(Mark::Semicolon, tokens)?;
    Ok((found, tokens))
}

fn fields(alloc: Global, tokens: &[Token]) -> Result<(Items<Named>, &[Token]), ReadError>
    ensures { Gives (λ x. (objects x.0, x.1.now)) result (declarations.fields tokens.now) }
{
    let mut list = Items::new(alloc);
    let mut tokens = tokens;
    'fields: while more_items(tokens) {
        let (item, rest) = field(alloc, tokens)?;
        list.push(item)?;
        tokens = rest;
    }
    Ok((list, tokens))
}

/// The fields of a struct or union in braces, and the semicolon.
#[tactic(auto, unfolding(crate::specs::Declarations::record_fields))]
pub fn record_fields(alloc: Global, tokens: &[Token]) -> Result<(Items<Named>, &[Token]), ReadError>
    ensures { Gives (λ x. (objects x.0, x.1.now)) result (declarations.record_fields tokens.now) }
{
    let tokens = expect(Mark::LeftBrace, tokens)?;
    let (list, tokens) = fields(alloc, tokens)?;
    let tokens = expect(Mark::RightBrace, tokens)?;
    let tokens = expect(Mark::Semicolon, tokens)?;
    Ok((list, tokens))
}
