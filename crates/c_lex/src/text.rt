//! The tokens of a text.

ghost use Rattle.std.specs.Prelude.{◌≡◌, ◌⊎◌, ◌++◌, List, OnOk, IfOk, IfErr, MatchResult};
ghost use Rattle.std.specs.Option.{option_to_list};
ghost use Rattle.c_ast.specs.Lexical.{IsTokenized};
ghost use Rattle.c_ast.specs.declared.token.Token.{Token};
ghost use Rattle.c_lex.specs.Refusal.{IsRefused};

use crate::error::LexError;
use crate::piece::{Fault, first_piece};
use crate::position::{column_behind, line_behind};
use c_ast::token::Token;
use lu_base::Memory;
use std::alloc::Global;

/// Puts the token, if there is one, behind the others.
fn keep(tokens: &mut Vec<Token>, token: Option<Token>) -> Result<(), Memory>
    ensures { OnOk result (tokens.new.items ≡ tokens.old.items ++ option_to_list token) }
{
    if let Some(token) = token {
        tokens.push(token)?;
    }
    Ok(())
}

fn read(alloc: Global, text: &[u8]) -> Result<Vec<Token>, LexError>
    ensures tokens { IfOk result (λ tokens. IsTokenized text.now tokens.items) }
    ensures refused { IfErr result (λ e. (e ≡ LexError.Memory) ⊎ IsRefused text.now e) }
{
    let mut tokens = Vec::new(alloc);
    let mut at = 0;
    while at < text.len() {
        match first_piece(alloc, &text[at..]) {
            Ok(piece) => {
                at += piece.len;
                keep(&mut tokens, piece.token)?;
            }
            Err(Fault::BadByte) => {
                let before = &text[..at];
                return Err(LexError::BadByte {
                    line: line_behind(before),
                    col: column_behind(before),
                });
            }
            Err(Fault::BadNumber) => {
                let before = &text[..at];
                return Err(LexError::BadNumber {
                    line: line_behind(before),
                    col: column_behind(before),
                });
            }
            Err(Fault::Memory) => return Err(LexError::Memory),
        }
    }
    Ok(tokens)
}

/// The tokens of a text, between blanks and comments, each the longest at its place.
/// The refusal names the first place where bytes remain and no token is read.
pub fn lex(alloc: Global, text: &[u8]) -> Result<Vec<Token>, LexError>
    ensures tokens { IfOk result (λ tokens. IsTokenized text.now tokens.items) }
    ensures refused { IfErr result (λ e. (e ≡ LexError.Memory) ⊎ IsRefused text.now e) }
    // a text that has tokens is refused for want of memory alone, and it has one list
    ensures only { (tokens : List Token) → IsTokenized text.now tokens → MatchResult result (λ found. found.items ≡ tokens) (λ e. e ≡ LexError.Memory) }
    // there is one refusal
    ensures first { (e : LexError) → IsRefused text.now e → (result ≡ Err e) ⊎ (result ≡ Err LexError.Memory) }
{
    read(alloc, text)
}
