// The program of a source.

ghost use Rattle.std.specs.Prelude.{◌≡◌, IfOk, IfErr, IfSome, IsTrue};
ghost use Rattle.c_types.specs.Numbering.{is_pointer_size};
ghost use Rattle.lu_spec.specs.Fault.{IsCaused};
ghost use Rattle.c_ast.specs.Trees.{declarations};
ghost use Rattle.src_meaning.specs.Valid.{IsValid};
ghost use Rattle.lu_source.specs.Sources.{Spells, Denotes, Refuses, FileAnswers, SourceAnswers};

use crate::SourceError;
use c_ast::decl::Ast;
use c_check::check::check_as;
use c_lex::lex;
use c_parse::parse;
use lu_base::limits::TEXT_BYTES;
use lu_base::{Bytes8, Shelf};
use src_tree::program::Program;
use std::alloc::Global;

/// The declarations that a text spells. The tokens are dropped before it returns.
fn spelled(alloc: Global, pointer: u32, text: &[u8]) -> Result<Ast, SourceError>
    ensures read { IfOk result (λ ds. Spells text.now (declarations ds)) }
    ensures refused { IfErr result (Refuses pointer text.now) }
{
    let tokens = lex(alloc, text)?;
    let declarations = parse(alloc, tokens.as_slice())?;
    Ok(declarations)
}

/// The program that a text denotes. The declarations are dropped before it returns.
fn denoted(alloc: Global, pointer: u32, text: &[u8]) -> Result<Program, SourceError>
    requires { IsTrue (is_pointer_size pointer) }
    ensures denoted { IfOk result (Denotes pointer text.now) }
    ensures valid { IfOk result IsValid }
    ensures refused { IfErr result (Refuses pointer text.now) }
{
    let declarations = spelled(alloc, pointer, text)?;
    let program = check_as(alloc, declarations.as_slice(), pointer)?;
    Ok(program)
}

/// The bytes of the file of that name, where it is there and within the limit.
fn read_text<S: Shelf>(alloc: Global, name: &str, shelf: &mut S) -> Result<Bytes8, SourceError>
    ensures kept { S.holds shelf.new ≡ S.holds shelf.old }
    ensures cause { IsCaused SourceError.ReadFault (S.faults shelf.old) (S.faults shelf.new) result }
    ensures answer { IfSome (S.holds shelf.old) (λ files. FileAnswers (files name.now) result) }
{
    let text = shelf.read(alloc, name, TEXT_BYTES as u64)?;
    Ok(text)
}

/// The program that the source in the file of that name denotes with pointers of 4 or 8 bytes, which is
/// valid. The file has at most 1,048,576 bytes.
/// Its bytes, its tokens and its tree are dropped before the call returns.
pub fn read_source<S: Shelf>(
    alloc: Global,
    name: &str,
    pointer: u32,
    shelf: &mut S,
) -> Result<Program, SourceError>
    requires { IsTrue (is_pointer_size pointer) }
    ensures kept { S.holds shelf.new ≡ S.holds shelf.old }
    ensures cause { IsCaused SourceError.ReadFault (S.faults shelf.old) (S.faults shelf.new) result }
    ensures answer { IfSome (S.holds shelf.old) (λ files. SourceAnswers pointer (files name.now) result) }
    ensures valid { IfOk result IsValid }
{
    let text = read_text(alloc, name, shelf)?;
    denoted(alloc, pointer, text.as_slice())
}
