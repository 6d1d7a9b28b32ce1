// The names of entries, as lines show them.

ghost use Rattle.std.specs.Prelude.{◌≡◌, IfOk, string_bytes, slice_get};
ghost use Rattle.std.specs.Option.{option_copied};
ghost use Rattle.lu_spec.specs.Then.{then_option};
ghost use Rattle.lu_image.specs.Names.{global_names, function_names, tag_names, site_names};
ghost use Rattle.lu_pair_lines.specs.Lines.{name_text, pair_text, part_text, site_text, names_in};

use c_types::{FieldDef, TagDef};
use lu_base::{Memory, Name};
use src_tree::program::{Program, Site};
use std::alloc::Global;

/// The text of a number; no bytes where it names none.
pub fn text_at(texts: &[Name], number: u32) -> &str
    ensures { result.now ≡ name_text (slice_get texts.now number) }
{
    match texts.get(number as usize) {
        None => "",
        Some(text) => text.as_str(),
    }
}

/// The name of the global that pairs with an old one, or `-`.
pub fn global_pair(program: &Program, pair: Option<u32>) -> &str
    ensures { result.now ≡ pair_text (global_names program.now) pair }
{
    match pair {
        None => "-",
        Some(number) => match program.globals.as_slice().get(number as usize) {
            None => "",
            Some(global) => text_at(program.names.as_slice(), global.name),
        },
    }
}

/// The name of the function that pairs with an old one, or `-`.
pub fn function_pair(program: &Program, pair: Option<u32>) -> &str
    ensures { result.now ≡ pair_text (function_names program.now) pair }
{
    match pair {
        None => "-",
        Some(number) => match program.functions.as_slice().get(number as usize) {
            None => "",
            Some(function) => text_at(program.names.as_slice(), function.name),
        },
    }
}

/// The structs or the unions of a program, and the texts that name them.
#[derive(Drop)]
pub struct Tags<'a> {
    pub texts: &'a [Name],
    pub tags: &'a [TagDef],
}

/// One of them, if it is there.
#[derive(Drop)]
pub struct Tagged<'a> {
    pub texts: &'a [Name],
    pub tag: Option<&'a TagDef>,
}

/// The tag of the struct or the union that pairs with an old one, or `-`.
pub fn tag_pair<'a>(new: &Tags<'a>, pair: Option<u32>) -> &'a str
    ensures { result.now ≡ pair_text (tag_names new.now.texts.now new.now.tags.now) pair }
{
    match pair {
        None => "-",
        Some(number) => match new.tags.get(number as usize) {
            None => "",
            Some(tag) => text_at(new.texts, tag.tag),
        },
    }
}

/// The struct or the union that pairs with an old one.
pub fn paired_tag(tags: &[TagDef], pair: Option<u32>) -> Option<&TagDef>
    ensures { option_copied result ≡ then_option pair (slice_get tags.now) }
{
    match pair {
        None => None,
        Some(number) => tags.get(number as usize),
    }
}

/// A field's or a member's name behind its tag, `tag.name`; no bytes where one of them is absent.
pub fn part_name(alloc: Global, texts: &[Name], tag: u32, field: FieldDef) -> Result<String, Memory>
    ensures { IfOk result (λ name. string_bytes name ≡ part_text texts.now tag field) }
{
    match (texts.get(tag as usize), texts.get(field.name as usize)) {
        (Some(tag), Some(name)) => {
            let tag = tag.as_str();
            let name = name.as_str();
            Ok(format!(in alloc; "{tag}.{name}")?)
        }
        _ => Ok(String::new(alloc)),
    }
}

/// The name of the field or the member that pairs with an old one, or `-`.
pub fn part_pair(alloc: Global, new: &Tagged, pair: Option<u32>) -> Result<String, Memory>
    ensures { let names = names_in new.now.texts.now (option_copied new.now.tag)
        in IfOk result (λ name. string_bytes name ≡ pair_text names pair) }
{
    match pair {
        None => Ok(String::from_str(alloc, "-")?),
        Some(number) => match new.tag {
            None => Ok(String::new(alloc)),
            Some(tag) => match tag.fields.as_slice().get(number as usize) {
                None => Ok(String::new(alloc)),
                Some(field) => part_name(alloc, new.texts, tag.tag, *field),
            },
        },
    }
}

/// An allocation's name, `function#ordinal`; no bytes where its function has none.
pub fn site_name(alloc: Global, program: &Program, site: Site) -> Result<String, Memory>
    ensures { IfOk result (λ name. string_bytes name ≡ site_text program.now site) }
{
    match program.functions.as_slice().get(site.function as usize) {
        None => Ok(String::new(alloc)),
        Some(function) => {
            match program.names.as_slice().get(function.name as usize) {
                None => Ok(String::new(alloc)),
                Some(name) => Ok(format!(in alloc; "{}#{}", name.as_str(), site.ordinal)?),
            }
        }
    }
}

/// The name of the allocation that pairs with an old one, or `-`.
pub fn site_pair(alloc: Global, program: &Program, pair: Option<u32>) -> Result<String, Memory>
    ensures { IfOk result (λ name. string_bytes name ≡ pair_text (site_names program.now) pair) }
{
    match pair {
        None => Ok(String::from_str(alloc, "-")?),
        Some(number) => match program.sites.as_slice().get(number as usize) {
            None => Ok(String::new(alloc)),
            Some(site) => site_name(alloc, program, *site),
        },
    }
}
