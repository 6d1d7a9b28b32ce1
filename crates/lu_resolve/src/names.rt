// Entries of a program by their names.

ghost use Rattle.std.specs.Prelude.{◌≡◌, ◌<◌, ◌^◌, length, position, slice_get};
ghost use Rattle.c_types.specs.declared.parts.TagDef.{TagDef as Tag};
ghost use Rattle.src_tree.specs.declared.program.Function.{Function};
ghost use Rattle.lu_image.specs.Names.{find, is_named, tag_names, function_names};

use c_types::TagDef;
use lu_base::Name;
use src_tree::program::Program;

/// Whether the text of that number is the name.
fn is_named(texts: &[Name], number: u32, name: &Name) -> bool
    ensures { result ≡ is_named name.now (slice_get texts.now number) }
{
    match texts.get(number as usize) {
        None => false,
        Some(text) => name.as_str() == text.as_str(),
    }
}

fn tag_position(texts: &[Name], tags: &[TagDef], name: &Name) -> Option<usize>
    ensures { result ≡ position (λ (tag : Tag). is_named name.now (slice_get texts.now tag.tag)) tags.now }
{
    tags.iter().position(|tag| is_named(texts, tag.tag, name))
}

/// The number of the first struct or union of a name.
pub fn find_tag(texts: &[Name], tags: &[TagDef], name: &Name) -> Option<u32>
    requires { length tags.now < 2 ^ 32 }
    ensures { result ≡ find name.now (tag_names texts.now tags.now) }
{
    match tag_position(texts, tags, name) {
        None => None,
        Some(place) => Some(place as u32),
    }
}

fn function_position(program: &Program, name: &Name) -> Option<usize>
    ensures { result ≡ position (λ (f : Function). is_named name.now (slice_get program.now.names f.name)) program.now.functions }
{
    let texts = program.names.as_slice();
    let functions = program.functions.as_slice();
    functions
        .iter()
        .position(|function| is_named(texts, function.name, name))
}

/// The number of the function of a name.
pub fn find_function(program: &Program, name: &Name) -> Option<u32>
    requires { length program.now.functions < 2 ^ 32 }
    ensures { result ≡ find name.now (function_names program.now) }
{
    match function_position(program, name) {
        None => None,
        Some(place) => Some(place as u32),
    }
}
