//! Programs.

ghost use Rattle.std.specs.Prelude.{◌≡◌, ℕ, List, IfOk};
ghost use Rattle.c_ast.specs.declared.fault.Fault.{Fault};
ghost use Rattle.c_ast.specs.Trees.{Declaration, declarations};
ghost use Rattle.c_ast.specs.Program.{IsProgram, IsRefusedAt};
ghost use Rattle.c_parse.specs.Answers.{Refuses, Only, OnlyRefused};

use crate::decl::decl;
use c_ast::decl::Ast;
use c_ast::token::Token;
use c_parse_expr::error::ParseError;
use c_parse_expr::whole::located;
use sqlite_items::Items;
use std::alloc::Global;

fn read(alloc: Global, tokens: &[Token]) -> Result<Ast, ParseError>
    ensures found { IfOk result (λ p. IsProgram tokens.now (declarations p)) }
    ensures refused { Refuses tokens.now result }
{
    let mut list = Items::new(alloc);
    let mut rest = tokens;
    'decls: while !rest.is_empty() {
        match decl(alloc, rest) {
            Ok((item, after)) => {
                list.push(item)?;
                rest = after;
            }
            Err(error) => return Err(located(list.len() + 1, error)),
        }
    }
    Ok(list)
}

/// The program that the tokens spell.
pub fn parse(alloc: Global, tokens: &[Token]) -> Result<Ast, ParseError>
    // What is read is a program whose spelling the text is.
    ensures found { IfOk result (λ p. IsProgram tokens.now (declarations p)) }
    // Where the text is the spelling of a program, that one is read.
    ensures only { (ds : List Declaration) → IsProgram tokens.now ds → Only ds result }
    // A refusal names the first declaration that can't be read, and tells whether a limit is passed in it.
    ensures refused { Refuses tokens.now result }
    // Each text with such a declaration is refused so.
    ensures kind { (f : Fault) (k : ℕ) → IsRefusedAt tokens.now f k → OnlyRefused f k result }
{
    read(alloc, tokens)
}
