// The table of a text.

ghost use Rattle.std.specs.Prelude.{◌≡◌, IfOk, OnOk, MatchOption};
ghost use Rattle.c_ast.specs.Trees.{declarations};
ghost use Rattle.c_types.specs.Refusal.{IsBuilt};
ghost use Rattle.c_check_table.specs.Tables as spec;

use crate::bodies::add_signatures;
use crate::draft::{Draft, parts_of};
use crate::outline::Outline;
use crate::predeclared::start_scope;
use crate::records::{add_message, add_records};
use crate::start::{base, base_parts};
use crate::texts::outline;
use c_ast::decl::Decl;
use c_check_scope::scope::Scope;
use c_types::{BuildError, Parts, TypeTable, well_numbered};
use std::alloc::{AllocError, Global};

/// The table of these parts; none where they are no table.
#[tactic(auto, using(crate::proofs::Refused::ill_numbered, crate::proofs::Refused::refused))]
fn built(alloc: Global, parts: Parts) -> Result<Option<TypeTable>, AllocError>
    ensures { IfOk result (λ table. MatchOption table (IsBuilt parts → ⊥) (λ table. table ≡ parts)) }
{
    if !well_numbered(&parts) {
        return Ok(None);
    }
    match TypeTable::build(alloc, parts) {
        Ok(table) => Ok(Some(table)),
        Err(BuildError::Memory) => Err(AllocError),
        Err(_) => Ok(None),
    }
}

#[tactic(auto, unfolding(crate::specs::Tables::draft_in))]
fn add_text(draft: &mut Draft, alloc: Global, scope: Scope, text: &[Decl]) -> Result<(), AllocError>
    ensures { OnOk result (draft.new ≡ spec.draft_in scope draft.old (declarations text.now)) }
{
    add_signatures(draft, alloc, &scope, text)?;
    add_message(draft, alloc)?;
    add_records(draft, alloc, scope, text)
}

/// The scope in which types are looked up; none where there is no table that has only what each begins with.
fn base_scope(
    alloc: Global,
    pointer: u32,
    draft: &Draft,
    outline: Outline,
) -> Result<Option<Scope>, AllocError>
    requires { draft.now ≡ spec.base pointer outline }
    ensures { IfOk result (λ scope. MatchOption scope (IsBuilt (spec.base_parts pointer outline) → ⊥) (λ scope. scope ≡ spec.base_scope pointer outline)) }
{
    let parts = base_parts(alloc, pointer, draft, &outline)?;
    match built(alloc, parts)? {
        None => Ok(None),
        Some(table) => {
            let scope = start_scope(alloc, &table, outline.names, outline.tags)?;
            Ok(Some(scope))
        }
    }
}

/// The table of the types of a text: the integer types, `void *`, the structs and unions, and the function pointer type
/// of each signature along the text, each with the pointer types that have at most nine stars over one of these or over
/// `void`; and then `int[6]` and the arrays along the text. Pointers take so many bytes, 4 or 8. None where these are no
/// table, or what each table begins with is none.
#[tactic(auto, unfolding(crate::specs::Tables::types_of))]
pub fn make_table(
    alloc: Global,
    pointer: u32,
    text: &[Decl],
) -> Result<Option<TypeTable>, AllocError>
    ensures { IfOk result (λ table. MatchOption table (spec.IsNoTable pointer (declarations text.now)) (λ table. table ≡ spec.types_of pointer (declarations text.now))) }
{
    let outline = outline(alloc, text)?;
    let mut draft = base(alloc, pointer, &outline)?;
    let Some(scope) = base_scope(alloc, pointer, &draft, outline)? else {
        return Ok(None);
    };
    add_text(&mut draft, alloc, scope, text)?;
    let parts = parts_of(alloc, draft)?;
    built(alloc, parts)
}
