//! What begins with a slash: comments and marks.

ghost use Rattle.std.specs.Prelude.{◌≡◌, ◌<◌, ◌≤◌, length, IfOk, IfSome, slice_index, drop};
ghost use Rattle.std.specs.List.{prefix_len};
ghost use Rattle.c_ast.specs.Lexeme as lexeme;
ghost use Rattle.c_ast.specs.Lexical.{meaning_of, HasBadByte, HasBadNumber};
ghost use Rattle.c_lex.specs.Front as front;
ghost use Rattle.c_lex.specs.Front.{IsFront};

use crate::mark::mark_piece;
use crate::piece::{Fault, Piece};

/// How many bytes there are up to and with the first closing of a comment.
fn comment_end(text: &[u8]) -> Option<usize>
    ensures value { result ≡ front.comment_end text.now }
    ensures within { IfSome result (λ end. end ≤ length text.now) }
{
    let mut at = 0;
    while at < text.len() {
        if text[at] == b'*' && at + 1 < text.len() && text[at + 1] == b'/' {
            return Some(at + 2);
        }
        at += 1;
    }
    None
}

fn comment(len: usize) -> Piece
    ensures { result ≡ record { len = len; token = None } }
{
    Piece { len, token: None }
}

fn block_comment(text: &[u8]) -> Result<Piece, Fault>
    requires long { 1 < length text.now }
    requires slash { slice_index text.now 0 ≡ 47 }
    requires star { slice_index text.now 1 ≡ 42 }
    ensures piece { IfOk result (λ p. IsFront text.now p.len (meaning_of p.token)) }
    ensures byte { result ≡ Err Fault.BadByte → HasBadByte text.now }
    ensures number { result ≡ Err Fault.BadNumber → HasBadNumber text.now }
{
    match comment_end(&text[2..]) {
        Some(end) => Ok(comment(2 + end)),
        None => Err(Fault::BadByte),
    }
}

/// How many bytes stand before the end of the line.
fn line_length(text: &[u8]) -> usize
    ensures value { result ≡ prefix_len front.is_of_line text.now }
    ensures within { result ≤ length text.now }
{
    text.iter().take_while(|b| **b != b'\n').count()
}

fn line_comment(text: &[u8]) -> Result<Piece, Fault>
    requires long { 1 < length text.now }
    requires slash { slice_index text.now 0 ≡ 47 }
    requires again { slice_index text.now 1 ≡ 47 }
    ensures piece { IfOk result (λ p. IsFront text.now p.len (meaning_of p.token)) }
    ensures byte { result ≡ Err Fault.BadByte → HasBadByte text.now }
    ensures number { result ≡ Err Fault.BadNumber → HasBadNumber text.now }
{
    Ok(comment(2 + line_length(&text[2..])))
}

pub fn slash_piece(text: &[u8]) -> Result<Piece, Fault>
    requires some { 0 < length text.now }
    requires slash { slice_index text.now 0 ≡ 47 }
    ensures piece { IfOk result (λ p. IsFront text.now p.len (meaning_of p.token)) }
    ensures byte { result ≡ Err Fault.BadByte → HasBadByte text.now }
    ensures number { result ≡ Err Fault.BadNumber → HasBadNumber text.now }
{
    if 1 < text.len() && text[1] == b'*' {
        block_comment(text)
    } else if 1 < text.len() && text[1] == b'/' {
        line_comment(text)
    } else {
        mark_piece(text)
    }
}
