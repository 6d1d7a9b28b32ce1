// The tags of a program.

ghost use Rattle.std.specs.Prelude.{◌≡◌, IfOk, OnOk, Some, None, replicate, slice_set};
ghost use Rattle.c_check.specs.ProgramScope as spec;

use c_ast::types::TagKind;
use c_check_scope::names::Names;
use c_check_scope::numbers::next;
use c_check_scope::scope::Tag;
use c_check_scope::types::Types;
use c_types::TagDef;
use sqlite_items::Items;
use std::alloc::{AllocError, Global};

#[tactic(auto, using(c_check_scope::proofs::Past::set_past))]
fn set_tag(tags: &mut Items<Option<Tag>>, name: usize, kind: TagKind, number: u32)
    ensures { tags.new ≡ slice_set tags.old name (Some (spec.tag kind number)) }
{
    if name < tags.len() {
        tags.set(
            name,
            Some(Tag {
                kind,
                number,
                is_declared: true,
            }),
        );
    }
}

fn no_tags(alloc: Global, count: usize) -> Result<Items<Option<Tag>>, AllocError>
    ensures { IfOk result (λ tags. tags ≡ replicate count None) }
{
    Ok(Items::from_vec(vec![in alloc; None; count]?))
}

fn add_tags(
    tags: &mut Items<Option<Tag>>,
    kind: TagKind,
    definitions: &[TagDef],
) -> Result<(), AllocError>
    ensures { OnOk result (tags.new ≡ spec.with_tags tags.old kind 0 definitions.now) }
{
    let mut number = 0u32;
    for definition in definitions {
        set_tag(tags, definition.tag as usize, kind, number);
        number = next(number)?;
    }
    Ok(())
}

/// The struct or union of which each name is the tag, if any. All are declared.
#[tactic(auto, unfolding(crate::specs::ProgramScope::tags_of))]
pub fn tags_of(
    alloc: Global,
    types: &Types,
    names: &Names,
) -> Result<Items<Option<Tag>>, AllocError>
    ensures { IfOk result (λ tags. tags ≡ spec.tags_of types.now names.now) }
{
    let mut tags = no_tags(alloc, names.len())?;
    add_tags(&mut tags, TagKind::Struct, types.parts().structs.as_slice())?;
    add_tags(&mut tags, TagKind::Union, types.parts().unions.as_slice())?;
    Ok(tags)
}
