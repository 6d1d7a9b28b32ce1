// The lines of the fields of structs and of the members of unions.

ghost use Rattle.std.specs.Prelude.{◌≡◌, ◌++◌, OnOk, string_bytes, slice_get};
ghost use Rattle.std.specs.Option.{option_copied};
ghost use Rattle.lu_image.specs.Names.{part_names};
ghost use Rattle.lu_pair_lines.specs.Lines.{entry_lines, part_lines, names_in, names_of_parts, names_of_paired};

use crate::entries::push_line;
use crate::names::{Tagged, Tags, paired_tag, part_name, part_pair};
use c_types::TagDef;
use lu_base::{Memory, Name, Sequence};
use std::alloc::Global;

/// The words at the front of each line of a kind.
#[derive(Drop)]
pub struct Front<'a> {
    pub update: &'a str,
    pub kind: &'a str,
}

/// Appends the lines of the fields of an old struct, or of the members of an old union, beside those of its pair.
fn push_parts_of(
    alloc: Global,
    text: &mut String,
    front: &Front,
    old_texts: &[Name],
    tag: &TagDef,
    new: &Tagged,
    pairs: &[Option<u32>],
) -> Result<(), Memory>
    ensures { OnOk result (string_bytes text.new ≡ string_bytes text.old
        ++ entry_lines front.now.update.now front.now.kind.now
        (part_names old_texts.now (slice_get old_texts.now tag.now.tag) tag.now.fields)
        (names_in new.now.texts.now (option_copied new.now.tag)) pairs.now) }
{
    let mut rest = tag.fields.as_slice();
    let mut others = pairs;
    while let [field, after @ ..] = rest {
        let [pair, further @ ..] = others else {
            return Ok(());
        };
        let name = part_name(alloc, old_texts, tag.tag, *field)?;
        let new_name = part_pair(alloc, new, *pair)?;
        push_line(
            text,
            front.update,
            front.kind,
            name.as_str(),
            new_name.as_str(),
        )?;
        rest = after;
        others = further;
    }
    Ok(())
}

/// Appends the lines of the fields of all structs, or of the members of all unions.
pub fn push_parts(
    alloc: Global,
    text: &mut String,
    front: &Front,
    old: &Tags,
    new: &Tags,
    pairs: &[Option<u32>],
    parts: &[Sequence<Option<u32>>],
) -> Result<(), Memory>
    ensures { OnOk result (string_bytes text.new ≡ string_bytes text.old
        ++ part_lines front.now.update.now front.now.kind.now
        (names_of_parts old.now.texts.now old.now.tags.now)
        (names_of_paired new.now.texts.now new.now.tags.now pairs.now) parts.now) }
{
    let mut rest = old.tags;
    let mut tag_pairs = pairs;
    let mut others = parts;
    while let [tag, after @ ..] = rest {
        let [pair, further @ ..] = tag_pairs else {
            return Ok(());
        };
        let [own, remaining @ ..] = others else {
            return Ok(());
        };
        let partner = Tagged {
            texts: new.texts,
            tag: paired_tag(new.tags, *pair),
        };
        push_parts_of(alloc, text, front, old.texts, tag, &partner, own.as_slice())?;
        rest = after;
        tag_pairs = further;
        others = remaining;
    }
    Ok(())
}
