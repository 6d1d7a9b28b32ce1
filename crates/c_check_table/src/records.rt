// The structs and unions of a text.

ghost use Rattle.std.specs.Prelude.{◌≡◌, IfOk, OnOk, [], Ok, slice_set};
ghost use Rattle.c_ast.specs.Trees.{object as object_tree, objects, declaration, declarations};
ghost use Rattle.c_check_scope.specs.Names.{tag_of};
ghost use Rattle.c_check_decl.specs.Records as decl_records;
ghost use Rattle.c_check_table.specs.Drafts as drafts;
ghost use Rattle.c_check_table.specs.Records as spec;

use crate::draft::{Draft, push};
use crate::objects::{add_array, add_type};
use crate::scoping::declare_tag;
use crate::tally::nameless;
use c_ast::decl::{Decl, Named};
use c_ast::types::TagKind;
use c_check_decl::layout::{record_align, record_size};
use c_check_decl::records::{judged_fields, name_number, one_more};
use c_check_expr::objects::ObjectType;
use c_check_scope::checked::Checked;
use c_check_scope::names::object_name;
use c_check_scope::numbers::as_number;
use c_check_scope::operation::INT;
use c_check_scope::scope::Scope;
use c_types::{FieldDef, Sequence, Shape, TagDef, Ty, TyId};
use lu_base::Name;
use sqlite_items::Items;
use std::alloc::{AllocError, Global};

#[tactic(auto, unfolding(crate::specs::Records::named_field))]
fn named_field(
    scope: &Scope,
    field: &Named,
    ty: Checked<TyId>,
) -> Result<Checked<FieldDef>, AllocError>
    ensures { IfOk result (λ f. f ≡ spec.named_field scope.now (object_tree field.now) ty) }
{
    match ty {
        Err(rules) => Ok(Err(rules)),
        Ok(ty) => {
            let name = name_number(scope, object_name(field))?;
            Ok(Ok(FieldDef { name, ty }))
        }
    }
}

/// Adds the types in those of fields, and gives the fields.
fn add_fields(
    draft: &mut Draft,
    alloc: Global,
    scope: &Scope,
    fields: &[Named],
) -> Result<Checked<Sequence<FieldDef>>, AllocError>
    ensures draft { OnOk result (draft.new ≡ (spec.fields_in scope.now draft.old (Ok []) (objects fields.now)).0) }
    ensures fields { IfOk result (λ done. done ≡ (spec.fields_in scope.now draft.old (Ok []) (objects fields.now)).1) }
{
    let mut done: Checked<Sequence<FieldDef>> = Ok(Sequence::from_vec(Vec::new(alloc)));
    for field in fields {
        let ty = add_type(draft, alloc, scope, field)?;
        let field = named_field(scope, field, ty)?;
        done = one_more(done, field)?;
    }
    Ok(done)
}

fn shape_of_record(draft: &Draft, kind: TagKind, fields: &[FieldDef]) -> Result<Shape, AllocError>
    ensures { IfOk result (λ s. s ≡ decl_records.record_shape (drafts.shapes draft.now) kind fields.now) }
{
    let Ok(size) = u32::try_from(record_size(draft, kind, fields)) else {
        return Err(AllocError);
    };
    let align = record_align(draft, kind, fields);
    Ok(Shape { size, align })
}

/// The type of this number has this size and alignment from here on, if there is such a type.
#[tactic(auto, using(c_check_scope::proofs::Past::set_past))]
fn set_shape(shapes: &mut Items<Shape>, number: usize, shape: Shape)
    ensures { shapes.new ≡ slice_set shapes.old number shape }
{
    if number < shapes.len() {
        shapes.set(number, shape);
    }
}

/// Adds the next struct or union.
#[tactic(auto, unfolding(crate::specs::Records::with_entry))]
fn add_entry(
    draft: &mut Draft,
    alloc: Global,
    kind: TagKind,
    entry: TagDef,
    shape: Shape,
) -> Result<(), AllocError>
    ensures { OnOk result (draft.new ≡ spec.with_entry draft.old kind entry shape) }
{
    match kind {
        TagKind::Struct => {
            let number = as_number(draft.structs.as_slice().len())?;
            push(&mut draft.structs, alloc, entry)?;
            set_shape(
                &mut draft.shapes,
                draft.types.place_of(Ty::Struct(number)),
                shape,
            );
        }
        TagKind::Union => {
            let number = as_number(draft.unions.as_slice().len())?;
            push(&mut draft.unions, alloc, entry)?;
            set_shape(
                &mut draft.shapes,
                draft.types.place_of(Ty::Union(number)),
                shape,
            );
        }
    }
    Ok(())
}

#[tactic(auto, unfolding(crate::specs::Records::with_fields))]
fn add_with_fields(
    draft: &mut Draft,
    alloc: Global,
    kind: TagKind,
    tag: u32,
    fields: Sequence<FieldDef>,
) -> Result<(), AllocError>
    ensures { OnOk result (draft.new ≡ spec.with_fields draft.old kind tag fields) }
{
    let shape = shape_of_record(draft, kind, fields.as_slice())?;
    add_entry(draft, alloc, kind, TagDef { tag, fields }, shape)
}

#[tactic(auto, unfolding(crate::specs::Records::or_nameless))]
fn or_nameless(
    alloc: Global,
    scope: &Scope,
    fields: Checked<Sequence<FieldDef>>,
) -> Result<Sequence<FieldDef>, AllocError>
    ensures { IfOk result (λ fs. fs ≡ spec.or_nameless scope.now fields) }
{
    match fields {
        Ok(fields) => Ok(fields),
        Err(_) => Ok(Sequence::from_vec(vec![in alloc; nameless(&scope.types)]?)),
    }
}

fn add_tagged(
    draft: &mut Draft,
    alloc: Global,
    scope: &Scope,
    kind: TagKind,
    number: u32,
    fields: &[Named],
) -> Result<(), AllocError>
    ensures { OnOk result (draft.new ≡ spec.judged_in scope.now kind number (objects fields.now) (spec.fields_in scope.now draft.old (Ok []) (objects fields.now))) }
{
    let done = add_fields(draft, alloc, scope, fields)?;
    let judged = judged_fields(alloc, draft, kind, fields, done)?;
    let fields = or_nameless(alloc, scope, judged)?;
    add_with_fields(draft, alloc, kind, number, fields)
}

/// Adds a struct or union where its tag is declared for the first time.
fn add_record(
    draft: &mut Draft,
    alloc: Global,
    scope: &Scope,
    kind: TagKind,
    name: &Name,
    fields: &[Named],
) -> Result<(), AllocError>
    ensures { OnOk result (draft.new ≡ spec.tagged_in scope.now draft.old kind name.now (objects fields.now) (tag_of scope.now name.now)) }
{
    match scope.tag_of(name) {
        None => Ok(()),
        Some(tag) => {
            if tag.is_declared {
                return Ok(());
            }
            let number = name_number(scope, name)?;
            add_tagged(draft, alloc, scope, kind, number, fields)
        }
    }
}

/// Adds `struct message { int source; int type; int arg[6]; };`.
#[tactic(auto, unfolding(crate::specs::Records::with_message))]
pub fn add_message(draft: &mut Draft, alloc: Global) -> Result<(), AllocError>
    ensures { OnOk result (draft.new ≡ spec.with_message draft.old) }
{
    let int = as_number(draft.types.place_of(INT))?;
    let array = add_array(
        draft,
        ObjectType {
            element: int,
            count: Some(6),
        },
    )?;
    let mut fields = Vec::new(alloc);
    fields.push(FieldDef { name: 1, ty: int })?;
    fields.push(FieldDef { name: 2, ty: int })?;
    fields.push(FieldDef { name: 3, ty: array })?;
    add_with_fields(draft, alloc, TagKind::Struct, 0, Sequence::from_vec(fields))
}

#[tactic(auto, unfolding(crate::specs::Records::in_declaration))]
fn add_declaration(
    draft: &mut Draft,
    alloc: Global,
    scope: &Scope,
    decl: &Decl,
) -> Result<(), AllocError>
    ensures { OnOk result (draft.new ≡ spec.in_declaration scope.now draft.old (declaration decl.now)) }
{
    match decl {
        Decl::Record(kind, name, fields) => {
            add_record(draft, alloc, scope, *kind, name, fields.as_slice())
        }
        Decl::Global(object, _) => {
            let _ = add_type(draft, alloc, scope, object)?;
            Ok(())
        }
        Decl::Prototype(_, _, _) => Ok(()),
        Decl::Function(_, _, _, _) => Ok(()),
    }
}

fn declare(scope: &mut Scope, decl: &Decl)
    ensures { scope.new ≡ spec.scope_after scope.old (declaration decl.now) }
{
    match decl {
        Decl::Record(_, name, _) => declare_tag(scope, name),
        Decl::Global(_, _) => {}
        Decl::Prototype(_, _, _) => {}
        Decl::Function(_, _, _, _) => {}
    }
}

/// Adds the structs, the unions and the arrays of a text, where the scope is that before the text.
pub fn add_records(
    draft: &mut Draft,
    alloc: Global,
    scope: Scope,
    decls: &[Decl],
) -> Result<(), AllocError>
    ensures { OnOk result (draft.new ≡ spec.in_text scope draft.old (declarations decls.now)) }
{
    let mut so_far = scope;
    for decl in decls {
        add_declaration(draft, alloc, &so_far, decl)?;
        declare(&mut so_far, decl);
    }
    Ok(())
}
