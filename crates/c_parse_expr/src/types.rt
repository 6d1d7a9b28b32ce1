//! Types.

ghost use Rattle.std.specs.Prelude.{◌≡◌, suc};
ghost use Rattle.c_parse_expr.specs.Reads.{one, climb, Gives};
ghost use Rattle.c_parse_expr.specs.Reading as reading;

use crate::error::ReadError;
use crate::tokens::{expect, expect_keyword, first, name, refusal, sees, sees_keyword, syntax};
use c_ast::token::{Keyword, Mark, Token};
use c_ast::types::{BaseType, TagKind, TypeName, UnsignedType};
use std::alloc::Global;

/// How many stars a type may have.
pub const STAR_LIMIT: u8 = 8;

fn unsigned_of(token: &Token) -> Option<UnsignedType>
    ensures { result ≡ reading.pick_unsigned token.now }
{
    match token {
        Token::Keyword(Keyword::Char) => Some(UnsignedType::Char),
        Token::Keyword(Keyword::Short) => Some(UnsignedType::Short),
        Token::Keyword(Keyword::Int) => Some(UnsignedType::Int),
        _ => None,
    }
}

fn sees_unsigned(tokens: &[Token]) -> bool
    ensures { result ≡ reading.sees_one reading.pick_unsigned tokens.now }
{
    match first(tokens) {
        Some((token, _)) => unsigned_of(token).is_some(),
        None => false,
    }
}

fn one_unsigned(tokens: &[Token]) -> Result<(UnsignedType, &[Token]), ReadError>
    ensures { Gives (λ x. (x.0, x.1.now)) result (one reading.pick_unsigned tokens.now) }
{
    let Some((token, rest)) = first(tokens) else {
        return Err(syntax());
    };
    match unsigned_of(token) {
        Some(found) => Ok((found, rest)),
        None => Err(syntax()),
    }
}

#[tactic(auto, unfolding(crate::specs::Reading::long_long))]
fn long_long(tokens: &[Token]) -> Result<&[Token], ReadError>
    ensures { Gives (λ x. ((tt, tt), x.now)) result (reading.long_long tokens.now) }
{
    let tokens = expect_keyword(Keyword::Long, tokens)?;
    expect_keyword(Keyword::Long, tokens)
}

#[tactic(auto, unfolding(crate::specs::Reading::unsigned_word))]
fn unsigned_word(tokens: &[Token]) -> Result<(UnsignedType, &[Token]), ReadError>
    ensures { Gives (λ x. (x.0, x.1.now)) result (reading.unsigned_word tokens.now) }
{
    if sees_keyword(Keyword::Long, tokens) {
        let tokens = long_long(tokens)?;
        Ok((UnsignedType::LongLong, tokens))
    } else {
        one_unsigned(tokens)
    }
}

#[tactic(auto, unfolding(crate::specs::Reading::unsigned_rest))]
fn unsigned_rest(tokens: &[Token]) -> Result<(UnsignedType, &[Token]), ReadError>
    ensures { Gives (λ x. (x.0, x.1.now)) result (reading.unsigned_rest tokens.now) }
{
    if sees_keyword(Keyword::Long, tokens) || sees_unsigned(tokens) {
        unsigned_word(tokens)
    } else {
        Ok((UnsignedType::Plain, tokens))
    }
}

#[tactic(auto, unfolding(crate::specs::Reading::unsigned_type))]
fn unsigned_type(tokens: &[Token]) -> Result<(BaseType, &[Token]), ReadError>
    ensures { Gives (λ x. (x.0, x.1.now)) result (reading.unsigned_type tokens.now) }
{
    let tokens = expect_keyword(Keyword::Unsigned, tokens)?;
    let (rest, tokens) = unsigned_rest(tokens)?;
    Ok((BaseType::Unsigned(rest), tokens))
}

fn tag_of(token: &Token) -> Option<TagKind>
    ensures { result ≡ reading.pick_tag token.now }
{
    match token {
        Token::Keyword(Keyword::Struct) => Some(TagKind::Struct),
        Token::Keyword(Keyword::Union) => Some(TagKind::Union),
        _ => None,
    }
}

/// Whether `struct` or `union` comes next.
pub fn sees_tag(tokens: &[Token]) -> bool
    ensures { result ≡ reading.sees_one reading.pick_tag tokens.now }
{
    match first(tokens) {
        Some((token, _)) => tag_of(token).is_some(),
        None => false,
    }
}

/// `struct` or `union`, and the text after it.
pub fn tag(tokens: &[Token]) -> Result<(TagKind, &[Token]), ReadError>
    ensures { Gives (λ x. (x.0, x.1.now)) result (one reading.pick_tag tokens.now) }
{
    let Some((token, rest)) = first(tokens) else {
        return Err(syntax());
    };
    match tag_of(token) {
        Some(found) => Ok((found, rest)),
        None => Err(syntax()),
    }
}

#[tactic(auto, unfolding(crate::specs::Reading::tagged))]
fn tagged(alloc: Global, tokens: &[Token]) -> Result<(BaseType, &[Token]), ReadError>
    ensures { Gives (λ x. (x.0, x.1.now)) result (reading.tagged tokens.now) }
{
    let (kind, tokens) = tag(tokens)?;
    let (name, tokens) = name(tokens)?;
    Ok((BaseType::Tagged(kind, name.copy(alloc)?), tokens))
}

fn base_of(token: &Token) -> Option<BaseType>
    ensures { result ≡ reading.pick_base token.now }
{
    match token {
        Token::Keyword(Keyword::Void) => Some(BaseType::Void),
        Token::Keyword(Keyword::Char) => Some(BaseType::Char),
        Token::Keyword(Keyword::Short) => Some(BaseType::Short),
        Token::Keyword(Keyword::Int) => Some(BaseType::Int),
        _ => None,
    }
}

fn sees_base(tokens: &[Token]) -> bool
    ensures { result ≡ reading.sees_one reading.pick_base tokens.now }
{
    match first(tokens) {
        Some((token, _)) => base_of(token).is_some(),
        None => false,
    }
}

fn one_base(tokens: &[Token]) -> Result<(BaseType, &[Token]), ReadError>
    ensures { Gives (λ x. (x.0, x.1.now)) result (one reading.pick_base tokens.now) }
{
    let Some((token, rest)) = first(tokens) else {
        return Err(syntax());
    };
    match base_of(token) {
        Some(found) => Ok((found, rest)),
        None => Err(syntax()),
    }
}

/// A type without stars, and the text after it.
#[tactic(auto, unfolding(crate::specs::Reading::base_type))]
pub fn base_type(alloc: Global, tokens: &[Token]) -> Result<(BaseType, &[Token]), ReadError>
    ensures { Gives (λ x. (x.0, x.1.now)) result (reading.base_type tokens.now) }
{
    if sees_keyword(Keyword::Long, tokens) {
        let tokens = long_long(tokens)?;
        Ok((BaseType::LongLong, tokens))
    } else if sees_keyword(Keyword::Unsigned, tokens) {
        unsigned_type(tokens)
    } else if sees_tag(tokens) {
        tagged(alloc, tokens)
    } else {
        one_base(tokens)
    }
}

/// The stars of a type, and the text after them.
pub fn stars(tokens: &[Token]) -> Result<(u8, &[Token]), ReadError>
    ensures { Gives (λ x. (x.0, x.1.now)) result (reading.stars tokens.now) }
{
    let mut count = 0;
    let mut tokens = tokens;
    'stars: while sees(Mark::Star, tokens) {
        if count == STAR_LIMIT {
            return Err(refusal(true));
        }
        tokens = expect(Mark::Star, tokens)?;
        count += 1;
    }
    Ok((count, tokens))
}

/// A type, and the text after it.
#[tactic(auto, unfolding(crate::specs::Reading::type_name))]
pub fn type_name(alloc: Global, tokens: &[Token]) -> Result<(TypeName, &[Token]), ReadError>
    ensures { Gives (λ x. (x.0, x.1.now)) result (reading.type_name tokens.now) }
{
    let (base, tokens) = base_type(alloc, tokens)?;
    let (stars, tokens) = stars(tokens)?;
    Ok((TypeName { base, stars }, tokens))
}

/// Whether a type begins here.
pub fn begins_type(tokens: &[Token]) -> bool
    ensures { result ≡ reading.begins_type tokens.now }
{
    sees_keyword(Keyword::Long, tokens)
        || sees_keyword(Keyword::Unsigned, tokens)
        || sees_tag(tokens)
        || sees_base(tokens)
}
