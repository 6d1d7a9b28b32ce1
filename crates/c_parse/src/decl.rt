//! Declarations.

ghost use Rattle.std.specs.Prelude.{◌≡◌, true};
ghost use Rattle.c_ast.specs.Trees.{initializer_if_any, declaration, objects, parameters};
ghost use Rattle.c_parse_expr.specs.Reads.{Gives};
ghost use Rattle.c_parse.specs.Declarations as declarations;
ghost use Rattle.c_parse.specs.Declarations.{FunctionRest};
ghost use Rattle.c_parse.specs.Views.{body_seen, rest_seen};

use crate::init::initial;
use crate::object::{length_if_any, pointer, record_fields, signature};
use crate::stmt::block;
use c_ast::decl::{Decl, Init, Named};
use c_ast::stmt::{Param, Stmt};
use c_ast::token::{Mark, Number, Token};
use c_ast::types::{BaseType, TypeName};
use c_parse_expr::error::ReadError;
use c_parse_expr::expr::LIMIT;
use c_parse_expr::tokens::{expect, name, sees};
use c_parse_expr::types::{base_type, stars};
use lu_base::Name;
use sqlite_items::{Boxed, Items};
use std::alloc::Global;

/// What follows a declaration's type.
#[derive(Drop)]
pub enum Rest {
    Pointer(Name, Option<Number>, Items<Param>, Option<Boxed<Init>>),
    Function(Name, Items<Param>, Option<Items<Stmt>>),
    Data(Name, Option<Number>, Option<Boxed<Init>>),
}

#[tactic(auto, unfolding(crate::specs::Declarations::start_or_end))]
fn start_or_end(
    alloc: Global,
    tokens: &[Token],
) -> Result<(Option<Boxed<Init>>, &[Token]), ReadError>
    ensures { Gives (λ x. (initializer_if_any x.0, x.1.now)) result (declarations.start_or_end tokens.now) }
{
    let (value, tokens) = initial(alloc, tokens)?;
    let tokens = expect(Mark::Semicolon, tokens)?;
    Ok((value, tokens))
}

#[tactic(auto, unfolding(crate::specs::Declarations::body_if_any))]
fn body_if_any(
    alloc: Global,
    tokens: &[Token],
) -> Result<(Option<Items<Stmt>>, &[Token]), ReadError>
    ensures { Gives (λ x. (body_seen x.0, x.1.now)) result (declarations.body_if_any tokens.now) }
{
    if sees(Mark::Semicolon, tokens) {
        let tokens = expect(Mark::Semicolon, tokens)?;
        Ok((None, tokens))
    } else {
        let (body, tokens) = block(alloc, tokens, LIMIT)?;
        Ok((Some(body), tokens))
    }
}

#[tactic(auto, unfolding(crate::specs::Declarations::pointer_rest))]
fn pointer_rest(alloc: Global, tokens: &[Token]) -> Result<(Rest, &[Token]), ReadError>
    ensures { Gives (λ x. (rest_seen x.0, x.1.now)) result (declarations.pointer_rest tokens.now) }
{
    let (name, length, list, tokens) = pointer(alloc, tokens)?;
    let (value, tokens) = start_or_end(alloc, tokens)?;
    Ok((
        Rest::Pointer(name.copy(alloc)?, length, list, value),
        tokens,
    ))
}

#[tactic(auto, unfolding(crate::specs::Declarations::function_rest))]
fn function_rest<'a>(
    alloc: Global,
    name: &Name,
    tokens: &'a [Token],
) -> Result<(Rest, &'a [Token]), ReadError>
    ensures { Gives (λ x. (rest_seen x.0, x.1.now)) result (declarations.function_rest name.now tokens.now) }
{
    let (list, tokens) = signature(alloc, tokens)?;
    let (body, tokens) = body_if_any(alloc, tokens)?;
    Ok((Rest::Function(name.copy(alloc)?, list, body), tokens))
}

#[tactic(auto, unfolding(crate::specs::Declarations::data_rest))]
fn data_rest<'a>(
    alloc: Global,
    name: &Name,
    tokens: &'a [Token],
) -> Result<(Rest, &'a [Token]), ReadError>
    ensures { Gives (λ x. (rest_seen x.0, x.1.now)) result (declarations.data_rest name.now tokens.now) }
{
    let (length, tokens) = length_if_any(tokens)?;
    let (value, tokens) = start_or_end(alloc, tokens)?;
    Ok((Rest::Data(name.copy(alloc)?, length, value), tokens))
}

#[tactic(auto, unfolding(crate::specs::Declarations::named_rest))]
fn named_rest<'a>(
    alloc: Global,
    name: &Name,
    tokens: &'a [Token],
) -> Result<(Rest, &'a [Token]), ReadError>
    ensures { Gives (λ x. (rest_seen x.0, x.1.now)) result (declarations.named_rest name.now tokens.now) }
{
    if sees(Mark::LeftParen, tokens) {
        function_rest(alloc, name, tokens)
    } else {
        data_rest(alloc, name, tokens)
    }
}

#[tactic(auto, unfolding(crate::specs::Declarations::rest))]
fn read_rest(alloc: Global, tokens: &[Token]) -> Result<(Rest, &[Token]), ReadError>
    ensures { Gives (λ x. (rest_seen x.0, x.1.now)) result (declarations.rest tokens.now) }
{
    if sees(Mark::LeftParen, tokens) {
        pointer_rest(alloc, tokens)
    } else {
        let (name, tokens) = name(tokens)?;
        named_rest(alloc, name, tokens)
    }
}

fn declares(base: &BaseType, tokens: &[Token]) -> bool
    ensures { result ≡ declarations.declares base.now tokens.now }
{
    match base {
        BaseType::Tagged(_, _) => sees(Mark::LeftBrace, tokens),
        BaseType::Void
        | BaseType::Char
        | BaseType::Short
        | BaseType::Int
        | BaseType::LongLong
        | BaseType::Unsigned(_) => false,
    }
}

fn function_by(ty: TypeName, name: Name, list: Items<Param>, body: Option<Items<Stmt>>) -> Decl
    ensures { declaration result ≡ declarations.declaration_by ty (FunctionRest name (parameters list) (body_seen body)) }
{
    match body {
        Some(body) => Decl::Function(ty, name, list, body),
        None => Decl::Prototype(ty, name, list),
    }
}

fn decl_by(ty: TypeName, rest: Rest) -> Decl
    ensures { declaration result ≡ declarations.declaration_by ty (rest_seen rest) }
{
    match rest {
        Rest::Pointer(name, length, list, value) => {
            Decl::Global(Named::Function(ty, name, length, list), value)
        }
        Rest::Function(name, list, body) => function_by(ty, name, list, body),
        Rest::Data(name, length, value) => Decl::Global(Named::Object(ty, name, length), value),
    }
}

fn record_by(base: BaseType, list: Items<Named>) -> Decl
    requires { declarations.is_tagged base ≡ true }
    ensures { declaration result ≡ declarations.record_by base (objects list) }
{
    match base {
        BaseType::Tagged(kind, name) => Decl::Record(kind, name, list),
        BaseType::Void
        | BaseType::Char
        | BaseType::Short
        | BaseType::Int
        | BaseType::LongLong
        | BaseType::Unsigned(_) => unreachable!(),
    }
}

/// A declaration, and the text after it.
#[tactic(auto, unfolding(crate::specs::Declarations::decl, crate::specs::Declarations::after))]
pub fn decl(alloc: Global, tokens: &[Token]) -> Result<(Decl, &[Token]), ReadError>
    ensures { Gives (λ x. (declaration x.0, x.1.now)) result (declarations.decl tokens.now) }
{
    let (base, tokens) = base_type(alloc, tokens)?;
    if declares(&base, tokens) {
        let (list, tokens) = record_fields(alloc, tokens)?;
        Ok((record_by(base, list), tokens))
    } else {
        let (stars, tokens) = stars(tokens)?;
        let (rest, tokens) = read_rest(alloc, tokens)?;
        Ok((decl_by(TypeName { base, stars }, rest), tokens))
    }
}
