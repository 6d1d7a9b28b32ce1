// The outline of a text.

ghost use Rattle.std.specs.Prelude.{◌≡◌, IfOk, OnOk};
ghost use Rattle.c_ast.specs.Trees as trees;
ghost use Rattle.c_check_table.specs.Outlines as spec;

use crate::outline::Outline;
use c_ast::decl::{Decl, Named};
use c_ast::types::TagKind;
use c_check_scope::names::object_name;
use c_check_scope::numbers::next;
use lu_base::Name;
use std::alloc::{AllocError, Global};

fn add_fields(outline: &mut Outline, alloc: Global, fields: &[Named]) -> Result<(), AllocError>
    ensures { OnOk result (outline.new ≡ spec.fields_named outline.old (trees.objects fields.now)) }
{
    for field in fields {
        outline.add_name(alloc, object_name(field))?;
    }
    Ok(())
}

#[tactic(auto, unfolding(crate::specs::Outlines::declared))]
fn add_declaration(
    outline: &mut Outline,
    alloc: Global,
    place: u32,
    decl: &Decl,
) -> Result<(), AllocError>
    ensures { OnOk result (outline.new ≡ spec.declared outline.old place (trees.declaration decl.now)) }
{
    match decl {
        Decl::Record(kind, name, fields) => {
            outline.add_tag(alloc, *kind, false, name)?;
            add_fields(outline, alloc, fields.as_slice())
        }
        Decl::Global(object, _) => {
            outline.add_name(alloc, object_name(object))?;
            Ok(())
        }
        Decl::Prototype(_, name, _) => {
            outline.add_heading(alloc, name, place)?;
            Ok(())
        }
        Decl::Function(_, name, _, _) => outline.add_definition(alloc, name, place),
    }
}

fn add_declarations(
    outline: &mut Outline,
    alloc: Global,
    declarations: &[Decl],
) -> Result<(), AllocError>
    ensures { OnOk result (outline.new ≡ spec.declared_after outline.old 0 (trees.declarations declarations.now)) }
{
    let mut place = 0u32;
    for decl in declarations {
        add_declaration(outline, alloc, place, decl)?;
        place = next(place)?;
    }
    Ok(())
}

fn add_text(outline: &mut Outline, alloc: Global, text: &str) -> Result<(), AllocError>
    ensures { OnOk result (outline.new ≡ spec.named outline.old text.now) }
{
    let name = Name::new(String::from_str(alloc, text)?);
    outline.add_name(alloc, &name)?;
    Ok(())
}

fn add_predeclared(outline: &mut Outline, alloc: Global) -> Result<(), AllocError>
    ensures { OnOk result (outline.new ≡ spec.all_named outline.old spec.predeclared) }
{
    add_text(outline, alloc, "source")?;
    add_text(outline, alloc, "type")?;
    add_text(outline, alloc, "arg")?;
    add_text(outline, alloc, "m_in")?;
    add_text(outline, alloc, "m_out")?;
    add_text(outline, alloc, "send")?;
    add_text(outline, alloc, "malloc")?;
    add_text(outline, alloc, "calloc")?;
    add_text(outline, alloc, "free")?;
    add_text(outline, alloc, "panic")
}

/// What stands before a text: `struct message` is struct 0 and declared.
#[tactic(auto, unfolding(crate::specs::Outlines::start))]
fn start(alloc: Global) -> Result<Outline, AllocError>
    ensures { IfOk result (λ o. o ≡ spec.start) }
{
    let mut outline = Outline::new(alloc);
    let name = Name::new(String::from_str(alloc, "message")?);
    outline.add_tag(alloc, TagKind::Struct, true, &name)?;
    add_predeclared(&mut outline, alloc)?;
    Ok(outline)
}

/// What a text declares, by name. Want of memory also where its declarations are too many to number.
#[tactic(auto, using(crate::proofs::SameNames::texts_are_names), unfolding(crate::specs::Outlines::outline))]
pub fn outline(alloc: Global, declarations: &[Decl]) -> Result<Outline, AllocError>
    ensures outline { IfOk result (λ o. o ≡ spec.outline (trees.declarations declarations.now)) }
    ensures texts { IfOk result (λ o. o.texts ≡ o.names) }
{
    let mut outline = start(alloc)?;
    add_declarations(&mut outline, alloc, declarations)?;
    Ok(outline)
}
