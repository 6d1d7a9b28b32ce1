// Whether a table has the signatures that a text writes.

ghost use Rattle.std.specs.Prelude.{◌≡◌, ◌&&◌, IfOk};
ghost use Rattle.std.specs.List.{list_any};
ghost use Rattle.c_ast.specs.Trees.{parameter, parameters, statement, statements, object, objects, declaration, declarations};
ghost use Rattle.c_check_expr.specs.Declarators.{same_signature};
ghost use Rattle.c_check_table.specs.Known as spec;

use c_ast::decl::{Decl, Named};
use c_ast::stmt::{Param, Stmt};
use c_ast::types::TypeName;
use c_check_expr::params::signature;
use c_check_expr::signatures::same_signature;
use c_check_scope::checked::Checked;
use c_check_scope::scope::Scope;
use c_check_scope::types::Types;
use c_types::Signature;
use std::alloc::{AllocError, Global};

fn is_among(signatures: &[Signature], signature: &Signature) -> bool
    ensures { result ≡ list_any (same_signature signature.now) signatures.now }
{
    signatures
        .iter()
        .any(|other| same_signature(signature, other))
}

#[tactic(auto, unfolding(crate::specs::Known::has_signature))]
fn has_signature(types: &Types, signature: &Checked<Signature>) -> bool
    ensures { result ≡ spec.has_signature types.now signature.now }
{
    match signature {
        Err(_) => true,
        Ok(signature) => is_among(types.parts().signatures.as_slice(), signature),
    }
}

#[cycle(param)]
#[tactic(auto, using(c_ast::proofs::Views::views))]
fn knows_parameter(alloc: Global, scope: &Scope, param: &Param) -> Result<bool, AllocError>
    ensures { IfOk result (λ known. known ≡ spec.knows_parameter scope.now (parameter param.now)) }
{
    match param {
        Param::Object(_, _) => Ok(true),
        Param::Function(answer, _, params) => knows_heading(
            alloc,
            scope,
            answer,
            params.as_slice(),
        ),
    }
}

#[cycle(param)]
fn knows_parameters(alloc: Global, scope: &Scope, params: &[Param]) -> Result<bool, AllocError>
    ensures { IfOk result (λ known. known ≡ spec.knows_parameters scope.now (parameters params.now)) }
{
    for param in params {
        if !knows_parameter(alloc, scope, param)? {
            return Ok(false);
        }
    }
    Ok(true)
}

#[cycle(param)]
fn knows_heading(
    alloc: Global,
    scope: &Scope,
    answer: &TypeName,
    params: &[Param],
) -> Result<bool, AllocError>
    ensures { IfOk result (λ known. known ≡ spec.knows_heading scope.now answer.now (parameters params.now)) }
{
    let signature = signature(alloc, scope, answer, params)?;
    if has_signature(&scope.types, &signature) {
        knows_parameters(alloc, scope, params)
    } else {
        Ok(false)
    }
}

#[cycle(statement)]
#[tactic(auto, using(c_ast::proofs::Views::views))]
fn knows_statement(alloc: Global, scope: &Scope, stmt: &Stmt) -> Result<bool, AllocError>
    ensures { IfOk result (λ known. known ≡ spec.knows_statement scope.now (statement stmt.now)) }
{
    match stmt {
        Stmt::Block(body) => knows_statements(alloc, scope, body.as_slice()),
        Stmt::Local(param, _) => knows_parameter(alloc, scope, param),
        Stmt::If(_, body) => knows_statement(alloc, scope, body.get()),
        Stmt::IfElse(_, then, otherwise) => {
            if knows_statement(alloc, scope, then.get())? {
                knows_statement(alloc, scope, otherwise.get())
            } else {
                Ok(false)
            }
        }
        Stmt::While(_, body) => knows_statement(alloc, scope, body.get()),
        Stmt::For(_, _, _, body) => knows_statement(alloc, scope, body.get()),
        Stmt::Empty
        | Stmt::Assign(_, _)
        | Stmt::Call(_, _)
        | Stmt::Break
        | Stmt::Continue
        | Stmt::Return(_) => Ok(true),
    }
}

#[cycle(statement)]
fn knows_statements(alloc: Global, scope: &Scope, stmts: &[Stmt]) -> Result<bool, AllocError>
    ensures { IfOk result (λ known. known ≡ spec.knows_statements scope.now (statements stmts.now)) }
{
    for stmt in stmts {
        if !knows_statement(alloc, scope, stmt)? {
            return Ok(false);
        }
    }
    Ok(true)
}

#[tactic(auto, unfolding(crate::specs::Known::knows_object))]
fn knows_object(alloc: Global, scope: &Scope, named: &Named) -> Result<bool, AllocError>
    ensures { IfOk result (λ known. known ≡ spec.knows_object scope.now (object named.now)) }
{
    match named {
        Named::Object(_, _, _) => Ok(true),
        Named::Function(answer, _, _, params) => knows_heading(
            alloc,
            scope,
            answer,
            params.as_slice(),
        ),
    }
}

fn knows_objects(alloc: Global, scope: &Scope, fields: &[Named]) -> Result<bool, AllocError>
    ensures { IfOk result (λ known. known ≡ spec.knows_objects scope.now (objects fields.now)) }
{
    for field in fields {
        if !knows_object(alloc, scope, field)? {
            return Ok(false);
        }
    }
    Ok(true)
}

fn knows_function(
    alloc: Global,
    scope: &Scope,
    answer: &TypeName,
    params: &[Param],
    body: &[Stmt],
) -> Result<bool, AllocError>
    ensures { IfOk result (λ known. known ≡ spec.knows_heading scope.now answer.now (parameters params.now) && spec.knows_statements scope.now (statements body.now)) }
{
    if knows_heading(alloc, scope, answer, params)? {
        knows_statements(alloc, scope, body)
    } else {
        Ok(false)
    }
}

#[tactic(auto, unfolding(crate::specs::Known::knows_declaration))]
fn knows_declaration(alloc: Global, scope: &Scope, decl: &Decl) -> Result<bool, AllocError>
    ensures { IfOk result (λ known. known ≡ spec.knows_declaration scope.now (declaration decl.now)) }
{
    match decl {
        Decl::Record(_, _, fields) => knows_objects(alloc, scope, fields.as_slice()),
        Decl::Global(named, _) => knows_object(alloc, scope, named),
        Decl::Prototype(answer, _, params) => knows_heading(
            alloc,
            scope,
            answer,
            params.as_slice(),
        ),
        Decl::Function(answer, _, params, body) => {
            knows_function(alloc, scope, answer, params.as_slice(), body.as_slice())
        }
    }
}

/// Whether the table of a scope has all signatures that a text writes: those of its functions and of its pointers to
/// functions. A signature that breaks a rule isn't asked for.
pub fn knows_declarations(alloc: Global, scope: &Scope, decls: &[Decl]) -> Result<bool, AllocError>
    ensures { IfOk result (λ known. known ≡ spec.knows_declarations scope.now (declarations decls.now)) }
{
    for decl in decls {
        if !knows_declaration(alloc, scope, decl)? {
            return Ok(false);
        }
    }
    Ok(true)
}
