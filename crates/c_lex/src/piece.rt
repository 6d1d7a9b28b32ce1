//! The piece at the front of a text: a blank, a comment or a token.

ghost use Rattle.std.specs.Prelude.{◌≡◌, ◌<◌, length, IfOk, slice_index};
ghost use Rattle.c_ast.specs.Lexeme as lexeme;
ghost use Rattle.c_ast.specs.Lexical.{HasBadByte, HasBadNumber, meaning_of};
ghost use Rattle.c_lex.specs.Front.{IsFront};

use crate::mark::mark_piece;
use crate::number::number_piece;
use crate::quoted::{character_piece, string_piece};
use crate::slash::slash_piece;
use crate::word::{is_letter, word_piece};
use c_ast::token::Token;
use lu_base::Memory;
use std::alloc::Global;

/// How many bytes a piece has, and its token, if it is no blank and no comment.
#[derive(Drop)]
pub struct Piece {
    pub len: usize,
    pub token: Option<Token>,
}

/// Why no piece stands at the front of a text.
#[derive(Clone, Copy, Debug, PartialEq, Eq)]
pub enum Fault {
    BadByte,
    BadNumber,
    Memory,
}

impl From<Memory> for Fault {
    ghost use Rattle.c_lex.specs.declared.piece.Fault.{Fault};

    ghost from_gives = { λ _ e. e ≡ Fault.Memory };

    fn from(_: Memory) -> Self {
        Fault::Memory
    }
}

fn is_blank(b: u8) -> bool
    ensures { result ≡ lexeme.is_blank b }
{
    b == b' ' || b == b'\t' || b == b'\n' || b == b'\r'
}

#[tactic(auto, using(crate::proofs::Marks::front_facts))]
pub fn first_piece(alloc: Global, text: &[u8]) -> Result<Piece, Fault>
    requires { 0 < length text.now }
    ensures piece { IfOk result (λ p. IsFront text.now p.len (meaning_of p.token)) }
    ensures byte { result ≡ Err Fault.BadByte → HasBadByte text.now }
    ensures number { result ≡ Err Fault.BadNumber → HasBadNumber text.now }
{
    let first = text[0];
    if is_blank(first) {
        return Ok(Piece {
            len: 1,
            token: None,
        });
    }
    if is_letter(first) {
        return word_piece(alloc, text);
    }
    if first.is_ascii_digit() {
        return number_piece(text);
    }
    match first {
        b'\'' => character_piece(text),
        b'"' => string_piece(alloc, text),
        b'/' => slash_piece(text),
        _ => mark_piece(text),
    }
}
