// All lines of an update.

ghost use Rattle.std.specs.Prelude.{◌≡◌, ◌++◌, IfOk, OnOk, string_bytes};
ghost use Rattle.lu_pair_lines.specs.Lines.{struct_lines, union_lines, pairing_text};

use crate::entries::{push_functions, push_globals, push_sites, push_tags};
use crate::names::Tags;
use crate::parts::{Front, push_parts};
use lu_base::{Memory, Name};
use lu_image::Pairing;
use src_tree::program::Program;
use std::alloc::Global;

/// The lines that say for each entry of the old program what pairs with it in the new one. Each ends with LF.
pub fn pair_lines(
    alloc: Global,
    update: &Name,
    old: &Program,
    new: &Program,
    pairing: &Pairing,
) -> Result<Vec<u8>, Memory>
    ensures { IfOk result
        (λ text. text.items ≡ pairing_text update.now old.now new.now pairing.now) }
{
    let mut text = String::new(alloc);
    let update = update.as_str();
    push_globals(&mut text, update, old, new, pairing.globals.as_slice())?;
    push_structs(alloc, &mut text, update, old, new, pairing)?;
    push_unions(alloc, &mut text, update, old, new, pairing)?;
    push_functions(&mut text, update, old, new, pairing.functions.as_slice())?;
    push_sites(alloc, &mut text, update, old, new, pairing.sites.as_slice())?;
    Ok(text.into_bytes())
}

// Appends the lines of the structs, and then those of their fields.
fn push_structs(
    alloc: Global,
    text: &mut String,
    update: &str,
    old: &Program,
    new: &Program,
    pairing: &Pairing,
) -> Result<(), Memory>
    ensures { OnOk result (string_bytes text.new ≡ string_bytes text.old
        ++ struct_lines update.now old.now new.now pairing.now) }
{
    let old = structs_of(old);
    let new = structs_of(new);
    let pairs = pairing.structs.as_slice();
    let fields = pairing.fields.as_slice();
    let front = Front {
        update,
        kind: "field",
    };
    push_tags(text, update, "struct", &old, &new, pairs)?;
    push_parts(alloc, text, &front, &old, &new, pairs, fields)?;
    Ok(())
}

fn structs_of(program: &Program) -> Tags
    ensures texts { result.texts.now ≡ program.now.names }
    ensures tags { result.tags.now ≡ program.now.types.structs }
{
    Tags {
        texts: program.names.as_slice(),
        tags: program.types.parts().structs.as_slice(),
    }
}

// Appends the lines of the unions, and then those of their members.
fn push_unions(
    alloc: Global,
    text: &mut String,
    update: &str,
    old: &Program,
    new: &Program,
    pairing: &Pairing,
) -> Result<(), Memory>
    ensures { OnOk result (string_bytes text.new ≡ string_bytes text.old
        ++ union_lines update.now old.now new.now pairing.now) }
{
    let old = unions_of(old);
    let new = unions_of(new);
    let pairs = pairing.unions.as_slice();
    let members = pairing.members.as_slice();
    let front = Front {
        update,
        kind: "member",
    };
    push_tags(text, update, "union", &old, &new, pairs)?;
    push_parts(alloc, text, &front, &old, &new, pairs, members)?;
    Ok(())
}

fn unions_of(program: &Program) -> Tags
    ensures texts { result.texts.now ≡ program.now.names }
    ensures tags { result.tags.now ≡ program.now.types.unions }
{
    Tags {
        texts: program.names.as_slice(),
        tags: program.types.parts().unions.as_slice(),
    }
}
