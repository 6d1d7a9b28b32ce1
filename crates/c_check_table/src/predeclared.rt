// What is declared before a text.

ghost use Rattle.std.specs.Prelude.{◌≡◌, IfOk};
ghost use Rattle.c_check_table.specs.Predeclared as spec;

use c_check_scope::names::Names;
use c_check_scope::scope::{BuiltIn, Meaning, Scope, Tag, set_meaning};
use c_check_scope::types::Types;
use c_types::{Ty, TyId, TypeTable};
use sqlite_items::Items;
use std::alloc::{AllocError, Global};

/// The number of the type `struct message`.
pub fn message_type(types: &Types) -> TyId
    ensures { result ≡ spec.message_type types.now }
{
    types.number_of(Ty::Struct(0))
}

fn nothing_yet(alloc: Global, tags: &[Option<Tag>]) -> Result<Items<Option<Meaning>>, AllocError>
    ensures { IfOk result (λ meanings. meanings ≡ spec.nothing_yet tags.now) }
{
    let mut meanings = Items::new(alloc);
    for _ in 0..tags.len() {
        meanings.push(None)?;
    }
    Ok(meanings)
}

fn add_messages(meanings: &mut Items<Option<Meaning>>, ty: TyId)
    ensures { meanings.new ≡ spec.with_messages meanings.old ty }
{
    set_meaning(meanings, 4, Meaning::Global(0, ty));
    set_meaning(meanings, 5, Meaning::Global(1, ty));
}

fn add_built_ins(meanings: &mut Items<Option<Meaning>>)
    ensures { meanings.new ≡ spec.with_built_ins meanings.old }
{
    set_meaning(meanings, 6, Meaning::BuiltIn(BuiltIn::Send));
    set_meaning(meanings, 7, Meaning::BuiltIn(BuiltIn::Malloc));
    set_meaning(meanings, 8, Meaning::BuiltIn(BuiltIn::Calloc));
    set_meaning(meanings, 9, Meaning::BuiltIn(BuiltIn::Free));
    set_meaning(meanings, 10, Meaning::BuiltIn(BuiltIn::Panic));
}

#[tactic(auto, unfolding(crate::specs::Predeclared::start_meanings))]
fn start_meanings(
    alloc: Global,
    ty: TyId,
    tags: &[Option<Tag>],
) -> Result<Items<Option<Meaning>>, AllocError>
    ensures { IfOk result (λ meanings. meanings ≡ spec.start_meanings ty tags.now) }
{
    let mut meanings = nothing_yet(alloc, tags)?;
    add_messages(&mut meanings, ty);
    add_built_ins(&mut meanings);
    Ok(meanings)
}

/// The scope before the first declaration of a text, from the names of the text and what they are the tags of.
#[tactic(auto, unfolding(crate::specs::Predeclared::start_scope))]
pub fn start_scope(
    alloc: Global,
    table: &TypeTable,
    names: Names,
    tags: Items<Option<Tag>>,
) -> Result<Scope, AllocError>
    ensures scope { IfOk result (λ scope. scope ≡ spec.start_scope table.now names tags) }
    ensures types { IfOk result (λ scope. scope.types ≡ table.now) }
{
    let types = Types::new(alloc, table)?;
    let meanings = start_meanings(alloc, message_type(&types), tags.as_slice())?;
    Ok(Scope {
        types,
        names,
        meanings,
        tags,
        locals: Names::new(alloc),
        variables: Items::new(alloc),
    })
}
