// The lines of globals, structs, unions, functions and sites.

ghost use Rattle.std.specs.Prelude.{◌≡◌, ◌++◌, OnOk, codes, string_bytes};
ghost use Rattle.lu_image.specs.Names.{global_names, function_names, tag_names, site_names};
ghost use Rattle.lu_pair_lines.specs.Lines.{pair_line, entry_lines};

use crate::names::{Tags, function_pair, global_pair, site_name, site_pair, tag_pair, text_at};
use lu_base::Memory;
use src_tree::program::Program;
use std::alloc::Global;

/// Appends the line of an old entry and of what pairs with it.
pub fn push_line(
    text: &mut String,
    update: &str,
    kind: &str,
    old: &str,
    new: &str,
) -> Result<(), Memory>
    ensures { OnOk result (string_bytes text.new ≡ string_bytes text.old
        ++ pair_line update.now kind.now old.now new.now) }
{
    write!(text, "pair {update} {kind} {old} {new}\n")?;
    Ok(())
}

/// Appends the lines of the globals.
pub fn push_globals(
    text: &mut String,
    update: &str,
    old: &Program,
    new: &Program,
    pairs: &[Option<u32>],
) -> Result<(), Memory>
    ensures { OnOk result (string_bytes text.new ≡ string_bytes text.old
        ++ entry_lines update.now (codes "global")
        (global_names old.now) (global_names new.now) pairs.now) }
{
    let mut rest = old.globals.as_slice();
    let mut others = pairs;
    while let [global, after @ ..] = rest {
        let [pair, further @ ..] = others else {
            return Ok(());
        };
        let name = text_at(old.names.as_slice(), global.name);
        push_line(text, update, "global", name, global_pair(new, *pair))?;
        rest = after;
        others = further;
    }
    Ok(())
}

/// Appends the lines of the functions.
pub fn push_functions(
    text: &mut String,
    update: &str,
    old: &Program,
    new: &Program,
    pairs: &[Option<u32>],
) -> Result<(), Memory>
    ensures { OnOk result (string_bytes text.new ≡ string_bytes text.old
        ++ entry_lines update.now (codes "function")
        (function_names old.now) (function_names new.now) pairs.now) }
{
    let mut rest = old.functions.as_slice();
    let mut others = pairs;
    while let [function, after @ ..] = rest {
        let [pair, further @ ..] = others else {
            return Ok(());
        };
        let name = text_at(old.names.as_slice(), function.name);
        push_line(text, update, "function", name, function_pair(new, *pair))?;
        rest = after;
        others = further;
    }
    Ok(())
}

/// Appends the lines of the sites.
pub fn push_sites(
    alloc: Global,
    text: &mut String,
    update: &str,
    old: &Program,
    new: &Program,
    pairs: &[Option<u32>],
) -> Result<(), Memory>
    ensures { OnOk result (string_bytes text.new ≡ string_bytes text.old
        ++ entry_lines update.now (codes "site")
        (site_names old.now) (site_names new.now) pairs.now) }
{
    let mut rest = old.sites.as_slice();
    let mut others = pairs;
    while let [site, after @ ..] = rest {
        let [pair, further @ ..] = others else {
            return Ok(());
        };
        let name = site_name(alloc, old, *site)?;
        let partner = site_pair(alloc, new, *pair)?;
        push_line(text, update, "site", name.as_str(), partner.as_str())?;
        rest = after;
        others = further;
    }
    Ok(())
}

/// Appends the lines of the structs or of the unions.
pub fn push_tags(
    text: &mut String,
    update: &str,
    kind: &str,
    old: &Tags,
    new: &Tags,
    pairs: &[Option<u32>],
) -> Result<(), Memory>
    ensures { OnOk result (string_bytes text.new ≡ string_bytes text.old
        ++ entry_lines update.now kind.now (tag_names old.now.texts.now old.now.tags.now)
        (tag_names new.now.texts.now new.now.tags.now) pairs.now) }
{
    let mut rest = old.tags;
    let mut others = pairs;
    while let [tag, after @ ..] = rest {
        let [pair, further @ ..] = others else {
            return Ok(());
        };
        let name = text_at(old.texts, tag.tag);
        push_line(text, update, kind, name, tag_pair(new, *pair))?;
        rest = after;
        others = further;
    }
    Ok(())
}
