// The names of a program's entries.

ghost use Rattle.std.specs.Prelude.{◌≡◌, map, IfOk, slice_get};
ghost use Rattle.std.specs.Option.{option_copied};
ghost use Rattle.lu_image.specs.Names.{global_names, function_names, tag_names, full_name, part_names, site_name, named_sites};

use crate::names::NameList;
use c_types::{FieldDef, TagDef};
use lu_base::{Memory, Name};
use src_tree::program::{Function, Global as GlobalVariable, Program, Site};
use std::alloc::Global;

/// The text of a number, if it names one.
pub fn text_at(alloc: Global, texts: &[Name], number: u32) -> Result<Option<Name>, Memory>
    ensures { IfOk result (λ text. text ≡ slice_get texts.now number) }
{
    match texts.get(number as usize) {
        None => Ok(None),
        Some(text) => Ok(Some(text.copy(alloc)?)),
    }
}

/// The text of a number as it stands in the list.
fn text_in(texts: &[Name], number: u32) -> Option<&Name>
    ensures { option_copied result ≡ slice_get texts.now number }
{
    match texts.get(number as usize) {
        None => None,
        Some(text) => Some(text),
    }
}

fn names_of_globals(
    alloc: Global,
    texts: &[Name],
    globals: &[GlobalVariable],
) -> Result<Vec<Option<Name>>, Memory>
    ensures { IfOk result (λ names. names.items ≡ map (λ g. slice_get texts.now g.name) globals.now) }
{
    let mut names = Vec::new(alloc);
    for global in globals {
        names.push(text_at(alloc, texts, global.name)?)?;
    }
    Ok(names)
}

fn names_of_functions(
    alloc: Global,
    texts: &[Name],
    functions: &[Function],
) -> Result<Vec<Option<Name>>, Memory>
    ensures { IfOk result (λ names. names.items ≡ map (λ f. slice_get texts.now f.name) functions.now) }
{
    let mut names = Vec::new(alloc);
    for function in functions {
        names.push(text_at(alloc, texts, function.name)?)?;
    }
    Ok(names)
}

fn names_of_tags(
    alloc: Global,
    texts: &[Name],
    tags: &[TagDef],
) -> Result<Vec<Option<Name>>, Memory>
    ensures { IfOk result (λ names. names.items ≡ tag_names texts.now tags.now) }
{
    let mut names = Vec::new(alloc);
    for tag in tags {
        names.push(text_at(alloc, texts, tag.tag)?)?;
    }
    Ok(names)
}

pub fn global_names(alloc: Global, program: &Program) -> Result<NameList, Memory>
    ensures { IfOk result (λ names. names ≡ global_names program.now) }
{
    let texts = program.names.as_slice();
    NameList::new(
        alloc,
        names_of_globals(alloc, texts, program.globals.as_slice())?,
    )
}

pub fn function_names(alloc: Global, program: &Program) -> Result<NameList, Memory>
    ensures { IfOk result (λ names. names ≡ function_names program.now) }
{
    let texts = program.names.as_slice();
    NameList::new(
        alloc,
        names_of_functions(alloc, texts, program.functions.as_slice())?,
    )
}

/// The tags of structs or of unions.
pub fn tag_names(alloc: Global, texts: &[Name], tags: &[TagDef]) -> Result<NameList, Memory>
    ensures { IfOk result (λ names. names ≡ tag_names texts.now tags.now) }
{
    NameList::new(alloc, names_of_tags(alloc, texts, tags)?)
}

/// A field's or a member's name behind its tag, `tag.name`.
fn full_name(alloc: Global, tag: &Option<Name>, name: Option<&Name>) -> Result<Option<Name>, Memory>
    ensures { IfOk result (λ full. full ≡ full_name tag.now (option_copied name.entry)) }
{
    match (tag, name) {
        (Some(tag), Some(name)) => {
            let mut text = String::from_str(alloc, tag.as_str())?;
            text.push_str(".")?;
            text.push_str(name.as_str())?;
            Ok(Some(Name::new(text)))
        }
        _ => Ok(None),
    }
}

/// The names of fields or members behind a tag.
pub fn part_names(
    alloc: Global,
    texts: &[Name],
    tag: &Option<Name>,
    fields: &[FieldDef],
) -> Result<Vec<Option<Name>>, Memory>
    ensures { IfOk result (λ names. names.items ≡ part_names texts.now tag.now fields.now) }
{
    let mut names = Vec::new(alloc);
    for field in fields {
        names.push(full_name(alloc, tag, text_in(texts, field.name))?)?;
    }
    Ok(names)
}

/// An allocation's name, `function#number`.
pub fn site_name(
    alloc: Global,
    function: Option<&Name>,
    number: u32,
) -> Result<Option<Name>, Memory>
    ensures { IfOk result (λ name. name ≡ site_name (option_copied function.entry) number) }
{
    match function {
        None => Ok(None),
        Some(function) => {
            let text = format!(in alloc; "{}#{number}", function.as_str())?;
            Ok(Some(Name::new(text)))
        }
    }
}

/// The names of sites, from those of the functions.
pub fn site_names(
    alloc: Global,
    functions: &NameList,
    sites: &[Site],
) -> Result<Vec<Option<Name>>, Memory>
    ensures { IfOk result (λ names. names.items ≡ named_sites functions.now sites.now) }
{
    let mut names = Vec::new(alloc);
    for site in sites {
        let function = functions.get(site.function as usize);
        names.push(site_name(alloc, function, site.ordinal)?)?;
    }
    Ok(names)
}
