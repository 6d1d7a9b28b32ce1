// What each table begins with.

ghost use Rattle.std.specs.Prelude.{◌≡◌, IfOk, OnOk};
ghost use Rattle.c_types.specs.declared.parts.Ty.TheVariants as kinds;
ghost use Rattle.c_types.specs.Layout.{shape};
ghost use Rattle.c_check_table.specs.Drafts.{with_stars};
ghost use Rattle.c_check_table.specs.Tables as spec;

use crate::draft::Draft;
use crate::outline::Outline;
use crate::signatures::GREATEST_STARS;
use c_check_scope::numbers::next;
use c_types::{FieldDef, IntKind, Parts, Sequence, Shape, TagDef, Ty};
use std::alloc::{AllocError, Global};

/// That of a struct or union that isn't declared yet.
const NO_SHAPE: Shape = Shape { size: 0, align: 1 };

fn add_int(draft: &mut Draft, kind: IntKind, size: u32) -> Result<(), AllocError>
    ensures { OnOk result (draft.new ≡ with_stars draft.old 9 (kinds.Int kind) (shape size size)) }
{
    draft.add_with_pointers(GREATEST_STARS, Ty::Int(kind), Shape { size, align: size })?;
    Ok(())
}

fn scalars(alloc: Global, pointer: u32) -> Result<Draft, AllocError>
    ensures { IfOk result (λ draft. draft ≡ spec.scalars pointer) }
{
    let mut draft = Draft::new(alloc, pointer);
    add_int(&mut draft, IntKind::Char, 1)?;
    add_int(&mut draft, IntKind::UChar, 1)?;
    add_int(&mut draft, IntKind::Short, 2)?;
    add_int(&mut draft, IntKind::UShort, 2)?;
    add_int(&mut draft, IntKind::Int, 4)?;
    add_int(&mut draft, IntKind::UInt, 4)?;
    add_int(&mut draft, IntKind::LongLong, 8)?;
    add_int(&mut draft, IntKind::ULongLong, 8)?;
    let shape = Shape {
        size: pointer,
        align: pointer,
    };
    draft.add_with_pointers(GREATEST_STARS - 1, Ty::VoidPointer, shape)?;
    Ok(draft)
}

fn add_structs(draft: &mut Draft, count: u32) -> Result<(), AllocError>
    ensures { OnOk result (draft.new ≡ spec.with_structs draft.old count) }
{
    for number in 0..count {
        draft.add_with_pointers(GREATEST_STARS, Ty::Struct(number), NO_SHAPE)?;
    }
    Ok(())
}

fn add_unions(draft: &mut Draft, count: u32) -> Result<(), AllocError>
    ensures { OnOk result (draft.new ≡ spec.with_unions draft.old count) }
{
    for number in 0..count {
        draft.add_with_pointers(GREATEST_STARS, Ty::Union(number), NO_SHAPE)?;
    }
    Ok(())
}

/// The integer types, `void *`, and the structs and unions, with their pointers, each of so many bytes.
#[tactic(auto, unfolding(crate::specs::Tables::base))]
pub fn base(alloc: Global, pointer: u32, outline: &Outline) -> Result<Draft, AllocError>
    ensures { IfOk result (λ draft. draft ≡ spec.base pointer outline.now) }
{
    let mut draft = scalars(alloc, pointer)?;
    add_structs(&mut draft, outline.structs)?;
    add_unions(&mut draft, outline.unions)?;
    Ok(draft)
}

/// So many structs or unions of which nothing is known, whose tags are numbered from `first` on.
fn all_unknown(alloc: Global, first: u32, count: u32) -> Result<Sequence<TagDef>, AllocError>
    ensures { IfOk result (λ entries. entries ≡ spec.all_unknown first count) }
{
    let mut entries = Vec::new(alloc);
    let mut tag = first;
    for _ in 0..count {
        let fields = Sequence::from_vec(vec![in alloc; FieldDef { name: 0, ty: 0 }]?);
        entries.push(TagDef { tag, fields })?;
        tag = next(tag)?;
    }
    Ok(Sequence::from_vec(entries))
}

/// The lists of a table that has only what each begins with.
#[tactic(auto, unfolding(crate::specs::Tables::base_parts))]
pub fn base_parts(
    alloc: Global,
    pointer: u32,
    draft: &Draft,
    outline: &Outline,
) -> Result<Parts, AllocError>
    requires { draft.now ≡ spec.base pointer outline.now }
    ensures { IfOk result (λ parts. parts ≡ spec.base_parts pointer outline.now) }
{
    Ok(Parts {
        pointer,
        types: draft.types.copy(alloc)?,
        structs: all_unknown(alloc, 0, outline.structs)?,
        unions: all_unknown(alloc, outline.structs, outline.unions)?,
        signatures: Sequence::from_vec(Vec::new(alloc)),
    })
}
