// The signatures of a text.

ghost use Rattle.std.specs.Prelude.{◌≡◌, OnOk};
ghost use Rattle.c_ast.specs.Trees.{statement, statements, object as object_tree, objects, parameters, declaration, declarations};
ghost use Rattle.c_check_table.specs.Signatures as spec;

use crate::draft::Draft;
use crate::signatures::{add_heading, add_param};
use c_ast::decl::{Decl, Named};
use c_ast::stmt::{Param, Stmt};
use c_ast::types::TypeName;
use c_check_scope::scope::Scope;
use std::alloc::{AllocError, Global};

/// Adds those of the locals of a statement.
#[cycle(statement)]
#[tactic(auto, using(c_ast::proofs::Views::views))]
fn add_in_statement(
    draft: &mut Draft,
    alloc: Global,
    scope: &Scope,
    stmt: &Stmt,
) -> Result<(), AllocError>
    ensures { OnOk result (draft.new ≡ spec.in_statement scope.now draft.old (statement stmt.now)) }
{
    match stmt {
        Stmt::Local(param, _) => {
            let _ = add_param(draft, alloc, scope, param)?;
            Ok(())
        }
        Stmt::Block(body) => add_in_statements(draft, alloc, scope, body.as_slice()),
        Stmt::If(_, body) => add_in_statement(draft, alloc, scope, body.get()),
        Stmt::IfElse(_, then, otherwise) => {
            add_in_statement(draft, alloc, scope, then.get())?;
            add_in_statement(draft, alloc, scope, otherwise.get())
        }
        Stmt::While(_, body) => add_in_statement(draft, alloc, scope, body.get()),
        Stmt::For(_, _, _, body) => add_in_statement(draft, alloc, scope, body.get()),
        Stmt::Empty
        | Stmt::Assign(_, _)
        | Stmt::Call(_, _)
        | Stmt::Break
        | Stmt::Continue
        | Stmt::Return(_) => Ok(()),
    }
}

#[cycle(statement)]
fn add_in_statements(
    draft: &mut Draft,
    alloc: Global,
    scope: &Scope,
    stmts: &[Stmt],
) -> Result<(), AllocError>
    ensures { OnOk result (draft.new ≡ spec.in_statements scope.now draft.old (statements stmts.now)) }
{
    for stmt in stmts {
        add_in_statement(draft, alloc, scope, stmt)?;
    }
    Ok(())
}

fn add_in_object(
    draft: &mut Draft,
    alloc: Global,
    scope: &Scope,
    named: &Named,
) -> Result<(), AllocError>
    ensures { OnOk result (draft.new ≡ spec.in_object scope.now draft.old (object_tree named.now)) }
{
    match named {
        Named::Object(_, _, _) => Ok(()),
        Named::Function(answer, _, _, params) => {
            let _ = add_heading(draft, alloc, scope, answer, params.as_slice())?;
            Ok(())
        }
    }
}

fn add_in_fields(
    draft: &mut Draft,
    alloc: Global,
    scope: &Scope,
    fields: &[Named],
) -> Result<(), AllocError>
    ensures { OnOk result (draft.new ≡ spec.in_objects scope.now draft.old (objects fields.now)) }
{
    for field in fields {
        add_in_object(draft, alloc, scope, field)?;
    }
    Ok(())
}

fn add_in_function(
    draft: &mut Draft,
    alloc: Global,
    scope: &Scope,
    answer: &TypeName,
    params: &[Param],
    body: &[Stmt],
) -> Result<(), AllocError>
    ensures { OnOk result (draft.new ≡ spec.in_statements scope.now (spec.heading_in scope.now draft.old answer.now (parameters params.now)).0 (statements body.now)) }
{
    let _ = add_heading(draft, alloc, scope, answer, params)?;
    add_in_statements(draft, alloc, scope, body)
}

#[tactic(auto, unfolding(crate::specs::Signatures::in_declaration))]
fn add_in_declaration(
    draft: &mut Draft,
    alloc: Global,
    scope: &Scope,
    decl: &Decl,
) -> Result<(), AllocError>
    ensures { OnOk result (draft.new ≡ spec.in_declaration scope.now draft.old (declaration decl.now)) }
{
    match decl {
        Decl::Record(_, _, fields) => add_in_fields(draft, alloc, scope, fields.as_slice()),
        Decl::Global(named, _) => add_in_object(draft, alloc, scope, named),
        Decl::Prototype(answer, _, params) => {
            let _ = add_heading(draft, alloc, scope, answer, params.as_slice())?;
            Ok(())
        }
        Decl::Function(answer, _, params, body) => add_in_function(
            draft,
            alloc,
            scope,
            answer,
            params.as_slice(),
            body.as_slice(),
        ),
    }
}

/// Adds the signature of each prototype, definition and function pointer of a text, with their types.
pub fn add_signatures(
    draft: &mut Draft,
    alloc: Global,
    scope: &Scope,
    decls: &[Decl],
) -> Result<(), AllocError>
    ensures { OnOk result (draft.new ≡ spec.in_text scope.now draft.old (declarations decls.now)) }
{
    for decl in decls {
        add_in_declaration(draft, alloc, scope, decl)?;
    }
    Ok(())
}
