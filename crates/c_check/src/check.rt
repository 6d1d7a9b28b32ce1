// The program that a text denotes.

ghost use Rattle.std.specs.Prelude.{◌≡◌, IfOk, IfErr, IsTrue};
ghost use Rattle.c_check_table.specs.Outlines as outlines;
ghost use Rattle.c_ast.specs.Trees.{declarations};
ghost use Rattle.c_types.specs.Numbering.{is_pointer_size};
ghost use Rattle.src_meaning.specs.Valid.{IsValid};
ghost use Rattle.c_check_decl.specs.Globals as globals;
ghost use Rattle.c_check.specs.Verdict as spec;
ghost use Rattle.c_check.specs.Denotation as denotation;
ghost use Rattle.c_check.specs.Denotation.{IsTableOf, Denotes, Breaks, Refuses};

use crate::headings::signatures;
use crate::standing::{Functions, Standing, start};
use crate::verdict::{Broken, judged};
use c_ast::decl::Decl;
use c_check_scope::error::CheckError;
use c_check_scope::scope::Scope;
use c_check_table::known::knows_declarations;
use c_check_table::make::make_table;
use c_check_table::predeclared::start_scope;
use c_check_table::tally::has_records;
use c_check_table::texts::outline;
use c_types::TypeTable;
use sqlite_items::Items;
use src_model::{has_types, valid_where_distinct};
use src_tree::program::Program;
use std::alloc::{AllocError, Global};

/// The scope before a text, with the types of a table.
fn scope_of(alloc: Global, table: &TypeTable, text: &[Decl]) -> Result<Scope, AllocError>
    ensures scope { IfOk result (λ s. s ≡ spec.scope_of table.now (declarations text.now)) }
    ensures types { IfOk result (λ s. s.types ≡ table.now) }
{
    let outline = outline(alloc, text)?;
    start_scope(alloc, table, outline.names, outline.tags)
}

/// The functions of a text, by the numbers of their names.
fn functions_in(alloc: Global, scope: &Scope, text: &[Decl]) -> Result<Functions, AllocError>
    ensures { IfOk result (λ f. f ≡ spec.functions_in scope.now (declarations text.now)) }
{
    let outline = outline(alloc, text)?;
    let signatures = signatures(alloc, scope, text, outline.headings.as_slice())?;
    Ok(Functions {
        definitions: outline.definitions,
        signatures,
    })
}

/// Whether a table has the signatures, structs, unions and arrays of a text.
#[tactic(auto, unfolding(crate::specs::Denotation::has_declarations))]
fn has_declarations(alloc: Global, table: &TypeTable, text: &[Decl]) -> Result<bool, AllocError>
    ensures { IfOk result (λ has. has ≡ denotation.has_declarations (spec.scope_of table.now (declarations text.now)) (declarations text.now)) }
{
    let scope = scope_of(alloc, table, text)?;
    if knows_declarations(alloc, &scope, text)? {
        let tally = has_records(alloc, table, scope, text)?;
        Ok(tally.holds)
    } else {
        Ok(false)
    }
}

/// Whether a table has the types that each program has.
#[tactic(auto, unfolding(crate::specs::Denotation::has_common))]
fn has_common(table: &TypeTable) -> bool
    ensures { result ≡ denotation.has_common table.now }
{
    has_types(table.parts())
}

/// Whether a table has the types that each program has, and those of a text.
fn has_text(alloc: Global, table: &TypeTable, text: &[Decl]) -> Result<bool, AllocError>
    ensures { IfOk result (λ has. has ≡ denotation.has_text table.now (declarations text.now)) }
{
    if has_common(table) {
        has_declarations(alloc, table, text)
    } else {
        Ok(false)
    }
}

/// A program of these types alone.
fn types_alone(alloc: Global, table: TypeTable) -> Program
    ensures { result ≡ globals.types_alone table }
{
    Program {
        names: Items::new(alloc),
        types: table,
        globals: Items::new(alloc),
        functions: Items::new(alloc),
        sites: Items::new(alloc),
    }
}

/// The table of the types of a text whose pointers take so many bytes. Want of memory also where none can be made, or it
/// hasn't all that it is asked for.
fn table_of(alloc: Global, pointer: u32, text: &[Decl]) -> Result<TypeTable, AllocError>
    ensures { IfOk result (IsTableOf pointer (declarations text.now)) }
{
    let Some(table) = make_table(alloc, pointer, text)? else {
        return Err(AllocError);
    };
    let has_text = has_text(alloc, &table, text)?;
    let _parts = table.parts();
    if has_text { Ok(table) } else { Err(AllocError) }
}

/// What stands after a text, judged with these types, or its first declaration that breaks a rule.
fn judged_in(
    alloc: Global,
    types: &Program,
    text: &[Decl],
) -> Result<Result<Standing, Broken>, AllocError>
    requires { types.now ≡ globals.types_alone types.now.types }
    ensures standing { IfOk result (λ s. s ≡ spec.judged_in (spec.scope_of types.now.types (declarations text.now)) (declarations text.now)) }
    ensures types { IfOk result (λ s. IfOk s (λ s. s.scope.types ≡ types.now.types)) }
{
    let scope = scope_of(alloc, &types.types, text)?;
    let functions = functions_in(alloc, &scope, text)?;
    let standing = start(alloc, &types.types, scope)?;
    judged(alloc, types, &functions, standing, text)
}

/// The program of what stands after a text.
fn program_of(
    alloc: Global,
    types: Program,
    standing: Standing,
    text: &[Decl],
) -> Result<Program, AllocError>
    requires { standing.scope.types ≡ types.types }
    ensures program { IfOk result (λ p. p ≡ spec.program_of (outlines.outline (declarations text.now)).texts standing) }
    ensures types { IfOk result (λ p. p.types ≡ types.types) }
{
    let outline = outline(alloc, text)?;
    Ok(Program {
        names: outline.texts,
        types: types.types,
        globals: standing.globals,
        functions: standing.functions,
        sites: standing.sites,
    })
}

/// The program of a text, judged with the types of a table, or its first declaration that breaks a rule.
fn verdict(
    alloc: Global,
    table: TypeTable,
    text: &[Decl],
) -> Result<Result<Program, Broken>, AllocError>
    ensures verdict { IfOk result (λ r. r ≡ spec.verdict table (declarations text.now)) }
    ensures types { IfOk result (λ r. IfOk r (λ p. p.types ≡ table)) }
{
    let types = types_alone(alloc, table);
    match judged_in(alloc, &types, text)? {
        Err(broken) => Ok(Err(broken)),
        Ok(standing) => {
            let program = program_of(alloc, types, standing, text)?;
            Ok(Ok(program))
        }
    }
}

/// The program that a text denotes, or its first declaration that breaks a rule.
fn denoted(
    alloc: Global,
    pointer: u32,
    text: &[Decl],
) -> Result<Result<Program, Broken>, AllocError>
    ensures program { IfOk result (λ r. IfOk r (Denotes pointer (declarations text.now))) }
    ensures broken { IfOk result (λ r. IfErr r (Breaks pointer (declarations text.now))) }
{
    let table = table_of(alloc, pointer, text)?;
    let judged = verdict(alloc, table, text)?;
    Ok(judged)
}

/// The program that a text denotes where pointers take so many bytes, which is valid, or the first declaration of the text
/// that breaks a rule, with the least code of the rules that it breaks. Want of memory also where the types of the text are no table, or the program
/// isn't valid, as where the tree of the text passes the limits of its grammar.
#[tactic(auto, using(crate::proofs::Denoting::refuses))]
pub fn check_as(alloc: Global, text: &[Decl], pointer: u32) -> Result<Program, CheckError>
    requires { IsTrue (is_pointer_size pointer) }
    ensures denoted { IfOk result (Denotes pointer (declarations text.now)) }
    ensures valid { IfOk result IsValid }
    ensures refused { IfErr result (Refuses pointer (declarations text.now)) }
{
    match denoted(alloc, pointer, text)? {
        Err(broken) => Err(CheckError::Rule {
            decl: broken.decl,
            code: broken.rules.least(),
        }),
        Ok(program) => {
            if valid_where_distinct(&program) {
                Ok(program)
            } else {
                Err(CheckError::Memory)
            }
        }
    }
}

/// As `check_as`, where pointers take 4 bytes.
pub fn check(alloc: Global, text: &[Decl]) -> Result<Program, CheckError>
    ensures denoted { IfOk result (Denotes 4 (declarations text.now)) }
    ensures valid { IfOk result IsValid }
    ensures refused { IfErr result (Refuses 4 (declarations text.now)) }
{
    check_as(alloc, text, 4)
}
