//! Words: keywords, reserved words and identifiers.

ghost use Rattle.std.specs.Prelude.{◌≡◌, ◌<◌, length, map, true, IfOk, slice_index};
ghost use Rattle.std.specs.List.{prefix_len, list_all};
ghost use Rattle.c_ast.specs.Lexeme as lexeme;
ghost use Rattle.c_ast.specs.Lexical.{meaning_of, HasBadByte, HasBadNumber};
ghost use Rattle.c_lex.specs.Front.{IsFront};

use crate::piece::{Fault, Piece};
use c_ast::spelling::{KEYWORDS, RESERVED_WORDS};
use c_ast::token::{Keyword, Reserved, Token};
use lu_base::{Memory, Name};
use std::alloc::Global;

pub fn is_letter(b: u8) -> bool
    ensures { result ≡ lexeme.is_letter b }
{
    b.is_ascii_alphabetic() || b == b'_'
}

pub fn is_word_byte(b: u8) -> bool
    ensures { result ≡ lexeme.is_word_byte b }
{
    b.is_ascii_alphanumeric() || b == b'_'
}

/// How many bytes at the front are those of words.
pub fn word_length(text: &[u8]) -> usize
    ensures { result ≡ prefix_len lexeme.is_word_byte text.now }
{
    text.iter().take_while(|b| is_word_byte(**b)).count()
}

/// What stands beside the word in the table.
pub fn look_up<T: Copy>(mut table: &[(&[u8], T)], word: &[u8]) -> Option<T>
    ensures { result ≡ lexeme.look_up (map (λ row. (row.0.now, row.1)) table.entry.now) word.now }
{
    while let [row, rest @ ..] = table {
        if row.0 == word {
            return Some(row.1);
        }
        table = rest;
    }
    None
}

#[tactic(auto, using(crate::proofs::Classes::word_is_ascii), unfolding(c_ast::specs::Lexeme::word_token))]
fn word_token(alloc: Global, word: &[u8]) -> Result<Token, Memory>
    requires { list_all lexeme.is_word_byte word.now ≡ true }
    ensures { IfOk result (λ t. t ≡ lexeme.word_token word.now) }
{
    if let Some(keyword) = look_up(&KEYWORDS, word) {
        return Ok(Token::Keyword(keyword));
    }
    if let Some(reserved) = look_up(&RESERVED_WORDS, word) {
        return Ok(Token::Reserved(reserved));
    }
    Ok(Token::Identifier(Name::from_ascii(alloc, word)?))
}

#[tactic(auto, using(crate::proofs::Words::word_facts))]
pub fn word_piece(alloc: Global, text: &[u8]) -> Result<Piece, Fault>
    requires first { 0 < length text.now }
    requires letter { lexeme.is_letter (slice_index text.now 0) ≡ true }
    ensures piece { IfOk result (λ p. IsFront text.now p.len (meaning_of p.token)) }
    ensures byte { result ≡ Err Fault.BadByte → HasBadByte text.now }
    ensures number { result ≡ Err Fault.BadNumber → HasBadNumber text.now }
{
    let len = word_length(text);
    let token = word_token(alloc, &text[..len])?;
    Ok(Piece {
        len,
        token: Some(token),
    })
}
