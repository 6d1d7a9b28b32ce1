// Structs with their fields, and unions with their members.

ghost use Rattle.std.specs.Prelude.{◌≡◌, ◌<◌, ◌^◌, length, map, IfOk};
ghost use Rattle.lu_image.specs.Names.{joined};
ghost use Rattle.lu_image.specs.Pairing.{paired_parts, part_pairs};
ghost use Rattle.lu_image.specs.RenameRefusal.{open_parts, new_parts};
ghost use Rattle.lu_pair.specs.Refusing.{IsRefusedBy};
ghost use Rattle.lu_pair.specs.Tags.{HaveFewParts, IsTagPairer, pair_of, tags_refused, parts_refused};

use crate::names::NameList;
use crate::open::{open_name, open_names};
use crate::renaming::Renaming;
use crate::texts::{part_names, tag_names, text_at};
use c_types::{FieldDef, Sequence, TagDef};
use lu_base::{Memory, Name};
use lu_image::{PairError, Rename, Table};
use std::alloc::Global;

/// The structs of two programs, or their unions, the texts that name them, and how they pair.
#[derive(Drop)]
pub struct TagPairer<'a> {
    renaming: Renaming,
    /// The tags of the new ones.
    new_names: NameList,
    old_texts: &'a [Name],
    new_texts: &'a [Name],
    old: &'a [TagDef],
    new: &'a [TagDef],
}

/// The fields or members of the new struct or union of a number, if there is one.
fn paired_parts(tags: &[TagDef], pair: Option<u32>) -> &[FieldDef]
    ensures { result.now ≡ paired_parts tags.now pair }
{
    match pair {
        None => &[],
        Some(pair) => match tags.get(pair as usize) {
            None => &[],
            Some(tag) => tag.fields.as_slice(),
        },
    }
}

/// Structs or unions, by the renames of their table.
pub fn tag_pairer<'a>(
    alloc: Global,
    table: Table,
    renames: &[Rename],
    old_texts: &'a [Name],
    new_texts: &'a [Name],
    old: &'a [TagDef],
    new: &'a [TagDef],
) -> Result<TagPairer<'a>, Memory>
    ensures { IfOk result (IsTagPairer table renames.now old_texts.now new_texts.now old.now new.now) }
{
    Ok(TagPairer {
        renaming: Renaming::of_table(alloc, table, renames)?,
        new_names: tag_names(alloc, new_texts, new)?,
        old_texts,
        new_texts,
        old,
        new,
    })
}

/// Refuses the renames of structs or of unions.
pub fn check_tags(alloc: Global, table: Table, p: &TagPairer) -> Result<(), PairError>
    ensures { IsRefusedBy (tags_refused table p.now) result }
{
    let old = tag_names(alloc, p.old_texts, p.old)?;
    let old = open_names(alloc, table, old.as_slice())?;
    let new = open_names(alloc, table, p.new_names.as_slice())?;
    p.renaming.check(alloc, &old, &new)
}

/// The pair of a struct or a union.
fn pair_of(alloc: Global, p: &TagPairer, tag: &TagDef) -> Result<Option<u32>, Memory>
    requires { length p.now.new_names < 2 ^ 32 }
    ensures { IfOk result (λ pair. pair ≡ pair_of p.now tag.now) }
{
    let name = text_at(alloc, p.old_texts, tag.tag)?;
    Ok(p.renaming.pair_by(&p.new_names, &name, &name))
}

/// The pairs of all structs or unions.
pub fn tag_pairs(alloc: Global, p: &TagPairer) -> Result<Vec<Option<u32>>, Memory>
    requires { length p.now.new_names < 2 ^ 32 }
    ensures { IfOk result (λ pairs. pairs.items ≡ map (pair_of p.now) p.now.old.now) }
{
    let mut pairs = Vec::new(alloc);
    for tag in p.old {
        pairs.push(pair_of(alloc, p, tag)?)?;
    }
    Ok(pairs)
}

/// The fields or members of a struct or union as renames see them, behind its tag.
fn open_parts(
    alloc: Global,
    table: Table,
    texts: &[Name],
    tag: &TagDef,
) -> Result<Vec<Option<Name>>, Memory>
    ensures { IfOk result (λ names. names.items ≡ open_parts table texts.now tag.now) }
{
    let name = open_name(alloc, table, &text_at(alloc, texts, tag.tag)?)?;
    part_names(alloc, texts, &name, tag.fields.as_slice())
}

/// Those of all structs or unions.
fn all_open_parts(
    alloc: Global,
    table: Table,
    texts: &[Name],
    tags: &[TagDef],
) -> Result<Vec<Option<Name>>, Memory>
    ensures { IfOk result (λ names. names.items ≡ joined (open_parts table texts.now) tags.now) }
{
    let mut names = Vec::new(alloc);
    for tag in tags {
        let mut more = open_parts(alloc, table, texts, tag)?;
        names.append(&mut more)?;
    }
    Ok(names)
}

/// The fields or members of the pair of a struct or union, behind the old tag.
fn new_parts(alloc: Global, p: &TagPairer, tag: &TagDef) -> Result<Vec<Option<Name>>, Memory>
    requires { length p.now.new_names < 2 ^ 32 }
    ensures { IfOk result (λ names. names.items
        ≡ new_parts p.now.old_texts.now p.now.new_texts.now p.now.new.now (pair_of p.now) tag.now) }
{
    let pair = pair_of(alloc, p, tag)?;
    let name = text_at(alloc, p.old_texts, tag.tag)?;
    part_names(alloc, p.new_texts, &name, paired_parts(p.new, pair))
}

/// Those of all pairs.
fn all_new_parts(alloc: Global, p: &TagPairer) -> Result<Vec<Option<Name>>, Memory>
    requires { length p.now.new_names < 2 ^ 32 }
    ensures { IfOk result (λ names. names.items
        ≡ joined (new_parts p.now.old_texts.now p.now.new_texts.now p.now.new.now (pair_of p.now)) p.now.old.now) }
{
    let mut names = Vec::new(alloc);
    for tag in p.old {
        let mut more = new_parts(alloc, p, tag)?;
        names.append(&mut more)?;
    }
    Ok(names)
}

/// Refuses the renames of fields or of members. `tags` is the table of the structs or the unions themselves.
pub fn check_parts(
    alloc: Global,
    tags: Table,
    renaming: &Renaming,
    p: &TagPairer,
) -> Result<(), PairError>
    requires { length p.now.new_names < 2 ^ 32 }
    ensures { IsRefusedBy (parts_refused tags renaming.now p.now) result }
{
    let old = NameList::new(alloc, all_open_parts(alloc, tags, p.old_texts, p.old)?)?;
    let new = NameList::new(alloc, all_new_parts(alloc, p)?)?;
    renaming.check(alloc, &old, &new)
}

/// The pairs of the fields of a struct, or of the members of a union.
fn part_pairs(
    alloc: Global,
    renaming: &Renaming,
    p: &TagPairer,
    tag: &TagDef,
) -> Result<Sequence<Option<u32>>, Memory>
    requires few { length p.now.new_names < 2 ^ 32 }
    requires few_parts { HaveFewParts p.now.new.now }
    ensures { IfOk result (λ pairs. pairs
        ≡ part_pairs renaming.now p.now.old_texts.now p.now.new_texts.now p.now.new.now (pair_of p.now) tag.now) }
{
    let name = text_at(alloc, p.old_texts, tag.tag)?;
    let old = part_names(alloc, p.old_texts, &name, tag.fields.as_slice())?;
    let new = NameList::new(alloc, new_parts(alloc, p, tag)?)?;
    Ok(Sequence::from_vec(renaming.pair_names(alloc, &old, &new)?))
}

/// The pairs of the fields of all structs, or of the members of all unions.
pub fn all_part_pairs(
    alloc: Global,
    renaming: &Renaming,
    p: &TagPairer,
) -> Result<Vec<Sequence<Option<u32>>>, Memory>
    requires few { length p.now.new_names < 2 ^ 32 }
    requires few_parts { HaveFewParts p.now.new.now }
    ensures { IfOk result (λ pairs. pairs.items
        ≡ map (part_pairs renaming.now p.now.old_texts.now p.now.new_texts.now p.now.new.now (pair_of p.now)) p.now.old.now) }
{
    let mut pairs = Vec::new(alloc);
    for tag in p.old {
        pairs.push(part_pairs(alloc, renaming, p, tag)?)?;
    }
    Ok(pairs)
}
