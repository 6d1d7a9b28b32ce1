//! Marks.

ghost use Rattle.std.specs.Prelude.{◌≡◌, ◌≢◌, ◌<◌, ◌≤◌, length, take, Some, None, IfOk, IfSome, slice_index};
ghost use Rattle.std.specs.Char.{is_ascii_digit};
ghost use Rattle.c_ast.specs.Lexeme as lexeme;
ghost use Rattle.c_ast.specs.Lexical.{meaning_of, HasBadByte, HasBadNumber};
ghost use Rattle.c_lex.specs.Front.{IsFront, BeginsMark, IsLastMark};

use crate::piece::{Fault, Piece};
use crate::word::look_up;
use c_ast::spelling::MARKS;
use c_ast::token::{Mark, Token};

#[tactic(auto, unfolding(c_ast::specs::Lexeme::mark_of))]
fn mark_of(word: &[u8]) -> Option<Mark>
    ensures { result ≡ lexeme.mark_of word.now }
{
    look_up(&MARKS, word)
}

/// The mark that is spelled by the first `len` bytes, where the text has so many.
fn mark_at(text: &[u8], len: usize) -> Option<Mark>
    ensures mark { len ≤ length text.now → result ≡ lexeme.mark_of (take len text.now) }
    ensures short { IfSome result (λ mark. len ≤ length text.now) }
{
    if len <= text.len() {
        mark_of(&text[..len])
    } else {
        None
    }
}

/// The longest mark at the front of a text, and its length in bytes.
#[tactic(auto, using(crate::proofs::Marks::front_facts))]
fn longest_mark(text: &[u8]) -> Option<(usize, Mark)>
    ensures found { IfSome result (λ p. IsLastMark text.now p.0) }
    ensures mark { IfSome result (λ p. Some p.1 ≡ lexeme.mark_of (take p.0 text.now)) }
    ensures within { IfSome result (λ p. (0 < p.0) × (p.0 ≤ length text.now)) }
    ensures none { result ≡ None → IsLastMark text.now 0 }
{
    if let Some(mark) = mark_at(text, 3) {
        return Some((3, mark));
    }
    if let Some(mark) = mark_at(text, 2) {
        return Some((2, mark));
    }
    if let Some(mark) = mark_at(text, 1) {
        return Some((1, mark));
    }
    None
}

#[tactic(auto, using(crate::proofs::Marks::front_facts))]
pub fn mark_piece(text: &[u8]) -> Result<Piece, Fault>
    requires { BeginsMark text.now }
    ensures piece { IfOk result (λ p. IsFront text.now p.len (meaning_of p.token)) }
    ensures byte { result ≡ Err Fault.BadByte → HasBadByte text.now }
    ensures number { result ≡ Err Fault.BadNumber → HasBadNumber text.now }
{
    match longest_mark(text) {
        Some((len, mark)) => Ok(Piece {
            len,
            token: Some(Token::Mark(mark)),
        }),
        None => Err(Fault::BadByte),
    }
}
