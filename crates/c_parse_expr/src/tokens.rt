//! The first tokens of a text.

ghost use Rattle.std.specs.Prelude.{[], ◌∷◌, ◌≡◌, MatchOption};
ghost use Rattle.c_ast.specs.Grammar.{level};
ghost use Rattle.c_parse_expr.specs.Reads.{one, Gives, limit_fault};
ghost use Rattle.c_parse_expr.specs.Reading as reading;

use crate::error::ReadError;
use c_ast::expr::{Access, BinaryOperator, UnaryOperator};
use c_ast::fault::Fault;
use c_ast::token::{Keyword, Mark, Token};
use lu_base::Name;

/// Why a text is refused whose first token fits nothing.
pub fn syntax() -> ReadError
    ensures { result ≡ ReadError.Refused Fault.Syntax }
{
    ReadError::Refused(Fault::Syntax)
}

/// Why a text is refused where no room is left.
pub fn refusal(begins: bool) -> ReadError
    ensures { result ≡ ReadError.Refused (limit_fault begins) }
{
    ReadError::Refused(if begins {
        Fault::TooDeep
    } else {
        Fault::Syntax
    })
}

#[tactic(auto, unfolding(crate::specs::Reading::same_mark))]
fn same_mark(found: Mark, mark: Mark) -> bool
    ensures { result ≡ reading.same_mark found mark }
{
    found == mark
}

#[tactic(auto, unfolding(crate::specs::Reading::same_keyword))]
fn same_keyword(found: Keyword, keyword: Keyword) -> bool
    ensures { result ≡ reading.same_keyword found keyword }
{
    found == keyword
}

/// Whether the token is this mark.
pub fn is_mark(mark: Mark, token: &Token) -> bool
    ensures { result ≡ reading.is_mark mark token.now }
{
    match token {
        Token::Mark(found) => same_mark(*found, mark),
        _ => false,
    }
}

fn is_keyword(keyword: Keyword, token: &Token) -> bool
    ensures { result ≡ reading.is_keyword keyword token.now }
{
    match token {
        Token::Keyword(found) => same_keyword(*found, keyword),
        _ => false,
    }
}

/// The first token, and the text after it.
pub fn first(tokens: &[Token]) -> Option<(&Token, &[Token])>
    ensures { MatchOption result (tokens.now ≡ []) (λ x. tokens.now ≡ x.0.now ∷ x.1.now) }
{
    match tokens {
        [token, rest @ ..] => Some((token, rest)),
        [] => None,
    }
}

/// Whether this mark comes next.
pub fn sees(mark: Mark, tokens: &[Token]) -> bool
    ensures { result ≡ reading.sees mark tokens.now }
{
    match first(tokens) {
        Some((token, _)) => is_mark(mark, token),
        None => false,
    }
}

/// Whether this keyword comes next.
pub fn sees_keyword(keyword: Keyword, tokens: &[Token]) -> bool
    ensures { result ≡ reading.sees_keyword keyword tokens.now }
{
    match first(tokens) {
        Some((token, _)) => is_keyword(keyword, token),
        None => false,
    }
}

/// The text after this mark.
#[tactic(auto, unfolding(crate::specs::Reading::expect))]
pub fn expect(mark: Mark, tokens: &[Token]) -> Result<&[Token], ReadError>
    ensures { Gives (λ x. (tt, x.now)) result (reading.expect mark tokens.now) }
{
    let Some((token, rest)) = first(tokens) else {
        return Err(syntax());
    };
    if is_mark(mark, token) {
        Ok(rest)
    } else {
        Err(syntax())
    }
}

/// The text after this keyword.
#[tactic(auto, unfolding(crate::specs::Reading::expect_keyword))]
pub fn expect_keyword(keyword: Keyword, tokens: &[Token]) -> Result<&[Token], ReadError>
    ensures { Gives (λ x. (tt, x.now)) result (reading.expect_keyword keyword tokens.now) }
{
    let Some((token, rest)) = first(tokens) else {
        return Err(syntax());
    };
    if is_keyword(keyword, token) {
        Ok(rest)
    } else {
        Err(syntax())
    }
}

/// A name, and the text after it.
#[tactic(auto, unfolding(crate::specs::Reading::name))]
pub fn name(tokens: &[Token]) -> Result<(&Name, &[Token]), ReadError>
    ensures { Gives (λ x. (x.0.now, x.1.now)) result (reading.name tokens.now) }
{
    match first(tokens) {
        Some((Token::Identifier(x), rest)) => Ok((x, rest)),
        _ => Err(syntax()),
    }
}

fn access_of(token: &Token) -> Option<Access>
    ensures { result ≡ reading.pick_access token.now }
{
    match token {
        Token::Mark(Mark::Dot) => Some(Access::Dot),
        Token::Mark(Mark::Arrow) => Some(Access::Arrow),
        _ => None,
    }
}

/// Whether `.` or `->` comes next.
pub fn sees_access(tokens: &[Token]) -> bool
    ensures { result ≡ reading.sees_one reading.pick_access tokens.now }
{
    match first(tokens) {
        Some((token, _)) => access_of(token).is_some(),
        None => false,
    }
}

/// `.` or `->`, and the text after it.
pub fn access(tokens: &[Token]) -> Result<(Access, &[Token]), ReadError>
    ensures { Gives (λ x. (x.0, x.1.now)) result (one reading.pick_access tokens.now) }
{
    let Some((token, rest)) = first(tokens) else {
        return Err(syntax());
    };
    match access_of(token) {
        Some(access) => Ok((access, rest)),
        None => Err(syntax()),
    }
}

fn unary_of(token: &Token) -> Option<UnaryOperator>
    ensures { result ≡ reading.pick_unary token.now }
{
    match token {
        Token::Mark(Mark::Minus) => Some(UnaryOperator::Negate),
        Token::Mark(Mark::Tilde) => Some(UnaryOperator::Complement),
        Token::Mark(Mark::Not) => Some(UnaryOperator::Not),
        Token::Mark(Mark::Star) => Some(UnaryOperator::Dereference),
        Token::Mark(Mark::Ampersand) => Some(UnaryOperator::AddressOf),
        _ => None,
    }
}

/// Whether an operator comes next that may stand before an operand.
pub fn sees_unary(tokens: &[Token]) -> bool
    ensures { result ≡ reading.sees_one reading.pick_unary tokens.now }
{
    match first(tokens) {
        Some((token, _)) => unary_of(token).is_some(),
        None => false,
    }
}

/// An operator before an operand, and the text after it.
pub fn unary_operator(tokens: &[Token]) -> Result<(UnaryOperator, &[Token]), ReadError>
    ensures { Gives (λ x. (x.0, x.1.now)) result (one reading.pick_unary tokens.now) }
{
    let Some((token, rest)) = first(tokens) else {
        return Err(syntax());
    };
    match unary_of(token) {
        Some(operator) => Ok((operator, rest)),
        None => Err(syntax()),
    }
}

fn operator_of(token: &Token) -> Option<BinaryOperator>
    ensures { result ≡ reading.operator_of token.now }
{
    match token {
        Token::Mark(Mark::Star) => Some(BinaryOperator::Multiply),
        Token::Mark(Mark::Slash) => Some(BinaryOperator::Divide),
        Token::Mark(Mark::Percent) => Some(BinaryOperator::Remainder),
        Token::Mark(Mark::Plus) => Some(BinaryOperator::Add),
        Token::Mark(Mark::Minus) => Some(BinaryOperator::Subtract),
        Token::Mark(Mark::ShiftLeft) => Some(BinaryOperator::ShiftLeft),
        Token::Mark(Mark::ShiftRight) => Some(BinaryOperator::ShiftRight),
        Token::Mark(Mark::Less) => Some(BinaryOperator::Less),
        Token::Mark(Mark::LessEqual) => Some(BinaryOperator::LessEqual),
        Token::Mark(Mark::Greater) => Some(BinaryOperator::Greater),
        Token::Mark(Mark::GreaterEqual) => Some(BinaryOperator::GreaterEqual),
        Token::Mark(Mark::EqualEqual) => Some(BinaryOperator::Equal),
        Token::Mark(Mark::NotEqual) => Some(BinaryOperator::NotEqual),
        Token::Mark(Mark::Ampersand) => Some(BinaryOperator::BitAnd),
        Token::Mark(Mark::Caret) => Some(BinaryOperator::BitXor),
        Token::Mark(Mark::Pipe) => Some(BinaryOperator::BitOr),
        Token::Mark(Mark::LogicalAnd) => Some(BinaryOperator::And),
        Token::Mark(Mark::LogicalOr) => Some(BinaryOperator::Or),
        _ => None,
    }
}

fn level_of(operator: BinaryOperator) -> u8
    ensures { result ≡ level operator }
{
    match operator {
        BinaryOperator::Multiply | BinaryOperator::Divide | BinaryOperator::Remainder => 2,
        BinaryOperator::Add | BinaryOperator::Subtract => 3,
        BinaryOperator::ShiftLeft | BinaryOperator::ShiftRight => 4,
        BinaryOperator::Less
        | BinaryOperator::LessEqual
        | BinaryOperator::Greater
        | BinaryOperator::GreaterEqual => 5,
        BinaryOperator::Equal | BinaryOperator::NotEqual => 6,
        BinaryOperator::BitAnd => 7,
        BinaryOperator::BitXor => 8,
        BinaryOperator::BitOr => 9,
        BinaryOperator::And => 10,
        BinaryOperator::Or => 11,
    }
}

fn at_level(level: u8, token: &Token) -> Option<BinaryOperator>
    ensures { result ≡ reading.pick_operator level token.now }
{
    match operator_of(token) {
        Some(operator) => {
            if level_of(operator) == level {
                Some(operator)
            } else {
                None
            }
        }
        None => None,
    }
}

/// Whether an operator of this level comes next.
pub fn sees_operator(level: u8, tokens: &[Token]) -> bool
    ensures { result ≡ reading.more_links level tokens.now }
{
    match first(tokens) {
        Some((token, _)) => at_level(level, token).is_some(),
        None => false,
    }
}

/// An operator of this level, and the text after it.
pub fn operator(level: u8, tokens: &[Token]) -> Result<(BinaryOperator, &[Token]), ReadError>
    ensures { Gives (λ x. (x.0, x.1.now)) result (one (reading.pick_operator level) tokens.now) }
{
    let Some((token, rest)) = first(tokens) else {
        return Err(syntax());
    };
    match at_level(level, token) {
        Some(operator) => Ok((operator, rest)),
        None => Err(syntax()),
    }
}
