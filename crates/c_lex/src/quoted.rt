//! Characters and strings.

ghost use Rattle.std.specs.Prelude.{◌≡◌, ◌<◌, ◌≤◌, length, IfOk, IfSome, slice_index, drop, false, option_map};
ghost use Rattle.c_ast.specs.Lexeme as lexeme;
ghost use Rattle.c_ast.specs.Lexical.{meaning_of, HasBadByte, HasBadNumber};
ghost use Rattle.c_lex.specs.Front as front;
ghost use Rattle.c_lex.specs.Front.{IsFront};

use crate::piece::{Fault, Piece};
use c_ast::token::Token;
use lu_base::{Bytes8, Memory};
use std::alloc::Global;

/// What a byte stands for behind a backslash.
fn escaped(b: u8) -> Option<u8>
    ensures { result ≡ lexeme.escaped b }
{
    match b {
        b'n' => Some(b'\n'),
        b't' => Some(b'\t'),
        b'r' => Some(b'\r'),
        b'0' => Some(0),
        b'\\' | b'\'' | b'"' => Some(b),
        _ => None,
    }
}

/// Whether a byte stands for itself between quotes.
fn is_plain(quote: u8, b: u8) -> bool
    ensures { result ≡ lexeme.is_plain quote b }
{
    b' ' <= b && b <= b'~' && b != b'\\' && b != quote
}

/// The element that a text begins with between quotes, and its length in bytes.
fn element(quote: u8, text: &[u8]) -> Option<(u8, usize)>
    ensures { result ≡ front.element quote text.now }
{
    match text {
        [b'\\', b, ..] => Some((escaped(*b)?, 2)),
        [b, ..] => {
            if is_plain(quote, *b) {
                Some((*b, 1))
            } else {
                None
            }
        }
        [] => None,
    }
}

/// A character behind its opening quote, if it is complete, and its length in bytes with the closing quote.
fn character_end(text: &[u8]) -> Option<(u8, usize)>
    ensures { result ≡ front.character_end text.now }
{
    match text {
        [b'\\', b, b'\'', ..] => Some((escaped(*b)?, 3)),
        [b'\\', ..] => None,
        [b, b'\'', ..] => {
            if is_plain(b'\'', *b) {
                Some((*b, 2))
            } else {
                None
            }
        }
        _ => None,
    }
}

#[tactic(auto, using(crate::proofs::Readings::quoted_facts))]
pub fn character_piece(text: &[u8]) -> Result<Piece, Fault>
    requires some { 0 < length text.now }
    requires quote { slice_index text.now 0 ≡ 39 }
    ensures piece { IfOk result (λ p. IsFront text.now p.len (meaning_of p.token)) }
    ensures byte { result ≡ Err Fault.BadByte → HasBadByte text.now }
    ensures number { result ≡ Err Fault.BadNumber → HasBadNumber text.now }
{
    match character_end(&text[1..]) {
        Some((c, len)) => Ok(Piece {
            len: 1 + len,
            token: Some(Token::Character(c)),
        }),
        None => Err(Fault::BadByte),
    }
}

/// A string's bytes, and its length in bytes of the text.
#[derive(Drop)]
struct Quoted {
    bytes: Vec<u8>,
    len: usize,
}

/// The string behind its opening quote, if it is complete.
fn string_end(alloc: Global, text: &[u8]) -> Result<Option<Quoted>, Memory>
    ensures value { IfOk result (λ r. option_map (λ q. (q.bytes.items, q.len)) r ≡ front.string_end text.now) }
    ensures within { IfOk result (λ r. IfSome r (λ q. q.len ≤ length text.now)) }
{
    let mut bytes = Vec::new(alloc);
    let mut at = 0;
    while at < text.len() {
        if text[at] == b'"' {
            return Ok(Some(Quoted { bytes, len: at + 1 }));
        }
        match element(b'"', &text[at..]) {
            Some((b, len)) => {
                bytes.push(b)?;
                at += len;
            }
            None => return Ok(None),
        }
    }
    Ok(None)
}

#[tactic(auto, using(crate::proofs::Readings::quoted_facts))]
pub fn string_piece(alloc: Global, text: &[u8]) -> Result<Piece, Fault>
    requires some { 0 < length text.now }
    requires quote { slice_index text.now 0 ≡ 34 }
    ensures piece { IfOk result (λ p. IsFront text.now p.len (meaning_of p.token)) }
    ensures byte { result ≡ Err Fault.BadByte → HasBadByte text.now }
    ensures number { result ≡ Err Fault.BadNumber → HasBadNumber text.now }
{
    match string_end(alloc, &text[1..])? {
        Some(string) => Ok(Piece {
            len: 1 + string.len,
            token: Some(Token::Text(Bytes8::new(string.bytes))),
        }),
        None => Err(Fault::BadByte),
    }
}
