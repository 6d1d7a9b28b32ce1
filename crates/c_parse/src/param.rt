//! Parameters.

ghost use Rattle.std.specs.Prelude.{◌≡◌, ◌∷◌, [], length};
ghost use Rattle.c_ast.specs.Trees.{parameter, parameters as parameters_seen, parameter_list};
ghost use Rattle.c_parse_expr.specs.Reads.{Gives, climb, snoc};
ghost use Rattle.c_parse_expr.specs.Reading as reading;
ghost use Rattle.c_parse.specs.Parameters as parameters;
ghost use Rattle.c_parse.specs.Views.{parameters_if_any};

use c_ast::stmt::Param;
use c_ast::token::{Mark, Token};
use c_ast::types::{BaseType, TypeName};
use c_parse_expr::error::ReadError;
use c_parse_expr::tokens::{expect, name, refusal, sees};
use c_parse_expr::types::{begins_type, type_name};
use lu_base::Name;
use sqlite_items::Items;
use std::alloc::Global;

#[tactic(auto, unfolding(crate::specs::Parameters::plain_declarator))]
fn plain_declarator(
    alloc: Global,
    tokens: &[Token],
) -> Result<(Name, Option<Items<Param>>, &[Token]), ReadError>
    ensures { Gives (λ x. ((x.0, parameters_if_any x.1), x.2.now)) result (parameters.plain_declarator tokens.now) }
{
    let (name, tokens) = name(tokens)?;
    Ok((name.copy(alloc)?, None, tokens))
}

#[cycle(params)]
#[tactic(auto, unfolding(crate::specs::Parameters::function_declarator))]
fn function_declarator(
    alloc: Global,
    tokens: &[Token],
    room: usize,
) -> Result<(Name, Option<Items<Param>>, &[Token]), ReadError>
    ensures { Gives (λ x. ((x.0, parameters_if_any x.1), x.2.now)) result (parameters.function_declarator (parameters.params room) tokens.now) }
{
    let tokens = expect(Mark::LeftParen, tokens)?;
    let tokens = expect(Mark::Star, tokens)?;
    let (name, tokens) = name(tokens)?;
    let tokens = expect(Mark::RightParen, tokens)?;
    let tokens = expect(Mark::LeftParen, tokens)?;
    let (list, tokens) = params(alloc, tokens, room)?;
    let tokens = expect(Mark::RightParen, tokens)?;
    Ok((name.copy(alloc)?, Some(list), tokens))
}

#[cycle(params)]
#[tactic(auto, unfolding(crate::specs::Parameters::declarator))]
fn declarator(
    alloc: Global,
    tokens: &[Token],
    room: usize,
) -> Result<(Name, Option<Items<Param>>, &[Token]), ReadError>
    ensures { Gives (λ x. ((x.0, parameters_if_any x.1), x.2.now)) result (parameters.declarator (parameters.params room) tokens.now) }
{
    if sees(Mark::LeftParen, tokens) {
        function_declarator(alloc, tokens, room)
    } else {
        plain_declarator(alloc, tokens)
    }
}

#[tactic(auto, using(c_ast::proofs::Views::views))]
fn param_by(ty: TypeName, name: Name, list: Option<Items<Param>>) -> Param
    ensures { parameter result ≡ parameters.parameter_by ty (name, parameters_if_any list) }
{
    match list {
        Some(list) => Param::Function(ty, name, list),
        None => Param::Object(ty, name),
    }
}

#[cycle(params)]
#[tactic(auto, unfolding(crate::specs::Parameters::first_param))]
fn first_param(
    alloc: Global,
    ty: TypeName,
    tokens: &[Token],
    room: usize,
) -> Result<(Param, &[Token]), ReadError>
    ensures { Gives (λ x. (parameter x.0, x.1.now)) result (parameters.first_param (parameters.params room) ty tokens.now) }
{
    let (name, list, tokens) = declarator(alloc, tokens, room)?;
    Ok((param_by(ty, name, list), tokens))
}

/// A type and a name, at a place where `room` more constructs may be open.
#[cycle(params)]
#[tactic(auto, unfolding(crate::specs::Parameters::param))]
pub fn param(alloc: Global, tokens: &[Token], room: usize) -> Result<(Param, &[Token]), ReadError>
    ensures { Gives (λ x. (parameter x.0, x.1.now)) result (parameters.param (parameters.params room) tokens.now) }
{
    let (ty, tokens) = type_name(alloc, tokens)?;
    let (name, list, tokens) = declarator(alloc, tokens, room)?;
    Ok((param_by(ty, name, list), tokens))
}

#[cycle(params)]
#[tactic(auto, unfolding(crate::specs::Parameters::next_param))]
fn next_param(alloc: Global, tokens: &[Token], room: usize) -> Result<(Param, &[Token]), ReadError>
    ensures { Gives (λ x. (parameter x.0, x.1.now)) result (parameters.next_param (parameters.params room) tokens.now) }
{
    let tokens = expect(Mark::Comma, tokens)?;
    param(alloc, tokens, room)
}

#[cycle(params)]
fn more_params(
    alloc: Global,
    first: Items<Param>,
    tokens: &[Token],
    room: usize,
) -> Result<(Items<Param>, &[Token]), ReadError>
    ensures { Gives (λ x. (parameter_list x.0, x.1.now)) result (climb (reading.sees Mark.Comma) (parameters.next_param (parameters.params room)) snoc (length tokens.now) (parameter_list first) tokens.now) }
{
    let mut list = first;
    let mut tokens = tokens;
    'commas: while sees(Mark::Comma, tokens) {
        let (param, rest) = next_param(alloc, tokens, room)?;
        list.push(param)?;
        tokens = rest;
    }
    Ok((list, tokens))
}

#[cycle(params)]
#[tactic(auto, unfolding(crate::specs::Parameters::some_params))]
fn some_params(
    alloc: Global,
    ty: TypeName,
    tokens: &[Token],
    room: usize,
) -> Result<(Items<Param>, &[Token]), ReadError>
    ensures { Gives (λ x. (parameter_list x.0, x.1.now)) result (parameters.some_params (parameters.params room) ty tokens.now) }
{
    let (first, tokens) = first_param(alloc, ty, tokens, room)?;
    let mut list = Items::new(alloc);
    list.push(first)?;
    more_params(alloc, list, tokens, room)
}

fn is_void_base(base: &BaseType) -> bool
    ensures { result ≡ parameters.is_void_base base.now }
{
    match base {
        BaseType::Void => true,
        BaseType::Char
        | BaseType::Short
        | BaseType::Int
        | BaseType::LongLong
        | BaseType::Unsigned(_)
        | BaseType::Tagged(_, _) => false,
    }
}

fn alone(ty: &TypeName, tokens: &[Token]) -> bool
    ensures { result ≡ parameters.alone ty.now tokens.now }
{
    is_void_base(&ty.base) && ty.stars == 0 && sees(Mark::RightParen, tokens)
}

#[cycle(params)]
#[tactic(auto, unfolding(crate::specs::Parameters::params_after))]
fn params_after(
    alloc: Global,
    ty: TypeName,
    tokens: &[Token],
    room: usize,
) -> Result<(Items<Param>, &[Token]), ReadError>
    ensures { Gives (λ x. (parameter_list x.0, x.1.now)) result (parameters.params_after (parameters.params room) ty tokens.now) }
{
    if alone(&ty, tokens) {
        Ok((Items::new(alloc), tokens))
    } else {
        some_params(alloc, ty, tokens, room)
    }
}

#[cycle(params)]
#[tactic(auto, using(c_ast::proofs::Views::parameters_listed), unfolding(crate::specs::Parameters::params_by))]
fn params_by(
    alloc: Global,
    tokens: &[Token],
    room: usize,
) -> Result<(Items<Param>, &[Token]), ReadError>
    ensures { Gives (λ x. (parameters_seen x.0, x.1.now)) result (parameters.params_by (parameters.params room) tokens.now) }
{
    let (ty, tokens) = type_name(alloc, tokens)?;
    let (list, tokens) = params_after(alloc, ty, tokens, room)?;
    Ok((list, tokens))
}

/// Parameters, at a place where `room` more constructs may be open and then one.
#[cycle(params)]
pub fn params(
    alloc: Global,
    tokens: &[Token],
    room: usize,
) -> Result<(Items<Param>, &[Token]), ReadError>
    ensures { Gives (λ x. (parameters_seen x.0, x.1.now)) result (parameters.params room tokens.now) }
{
    if room == 0 {
        return Err(refusal(begins_type(tokens)));
    }
    params_by(alloc, tokens, room - 1)
}
