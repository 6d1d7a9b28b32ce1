// The scope of all that a program declares.

ghost use Rattle.std.specs.Prelude.{◌≡◌, IfOk};
ghost use Rattle.c_check.specs.ProgramScope as spec;

use crate::meanings::meanings_of;
use crate::names::names_of;
use crate::tags::tags_of;
use c_check_scope::names::Names;
use c_check_scope::scope::Scope;
use c_check_scope::types::Types;
use sqlite_items::Items;
use src_tree::program::Program;
use std::alloc::{AllocError, Global};

#[tactic(auto, unfolding(crate::specs::ProgramScope::scope_named))]
fn scope_named(alloc: Global, program: &Program, names: Names) -> Result<Scope, AllocError>
    ensures { IfOk result (λ scope. scope ≡ spec.scope_named program.now names) }
{
    let types = Types::new(alloc, &program.types)?;
    let tags = tags_of(alloc, &types, &names)?;
    let meanings = meanings_of(alloc, program, &types, &names)?;
    Ok(Scope {
        types,
        names,
        meanings,
        tags,
        locals: Names::new(alloc),
        variables: Items::new(alloc),
    })
}

/// The scope of all globals, functions and built-in functions of a program, and of all its structs and unions.
#[tactic(auto, unfolding(crate::specs::ProgramScope::scope_of))]
pub fn scope_of(alloc: Global, program: &Program) -> Result<Scope, AllocError>
    ensures { IfOk result (λ scope. scope ≡ spec.scope_of program.now) }
{
    let names = names_of(alloc, program)?;
    scope_named(alloc, program, names)
}
