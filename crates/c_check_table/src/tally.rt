// Whether a table of types has the structs, unions and arrays of a text.

ghost use Rattle.std.specs.Prelude.{◌≡◌, ◌&&◌, IfOk, false, nat_eq, slice_get};
ghost use Rattle.std.specs.Option.{option_copied};
ghost use Rattle.c_ast.specs.Trees.{object as object_tree, objects, declaration, declarations};
ghost use Rattle.c_check_scope.specs.Operations.{int_type};
ghost use Rattle.c_check_scope.specs.Names.{tag_of};
ghost use Rattle.c_check_expr.specs.Denoted as denoted;
ghost use Rattle.c_check_decl.specs.Records as decl_records;
ghost use Rattle.c_check_table.specs.Tally as spec;

use crate::scoping::declare_tag;
use c_ast::decl::{Decl, Named};
use c_ast::types::TagKind;
use c_check_decl::objects::small_type;
use c_check_decl::records::{name_number, record_fields};
use c_check_expr::objects::ObjectType;
use c_check_scope::checked::Checked;
use c_check_scope::operation::INT;
use c_check_scope::scope::{Scope, Tag};
use c_check_scope::types::Types;
use c_types::{FieldDef, Parts, Sequence, TagDef, Ty, TyId, TypeTable};
use lu_base::Name;
use std::alloc::{AllocError, Global};

/// How far a table of types has what a text declares.
#[derive(Drop)]
pub struct Tally {
    /// What is declared so far.
    pub scope: Scope,
    /// Whether the table has the types of the declarations so far.
    pub holds: bool,
}

fn has_type(types: &Types, ty: Ty) -> bool
    ensures { result ≡ spec.has_type types.now ty }
{
    types
        .parts()
        .types
        .as_slice()
        .iter()
        .any(|other| ty == *other)
}

#[tactic(auto, unfolding(crate::specs::Tally::has_array))]
fn has_array(types: &Types, ty: Checked<ObjectType>) -> bool
    ensures { result ≡ spec.has_array types.now ty }
{
    match ty {
        Err(_) => true,
        Ok(ty) => match ty.count {
            None => true,
            Some(count) => has_type(types, Ty::Array(ty.element, count)),
        },
    }
}

fn has_arrays(
    alloc: Global,
    scope: &Scope,
    table: &TypeTable,
    fields: &[Named],
) -> Result<bool, AllocError>
    requires { table.now ≡ scope.now.types }
    ensures { IfOk result (λ has. has ≡ spec.has_arrays scope.now (objects fields.now)) }
{
    for field in fields {
        let ty = small_type(alloc, scope, table, field)?;
        if !has_array(&scope.types, ty) {
            return Ok(false);
        }
    }
    Ok(true)
}

fn same_fields(a: &[FieldDef], b: &[FieldDef]) -> bool
    ensures { result ≡ spec.same_fields a.now b.now }
{
    match (a.split_first(), b.split_first()) {
        (None, None) => true,
        (Some((x, xs)), Some((y, ys))) => x.name == y.name && x.ty == y.ty && same_fields(xs, ys),
        _ => false,
    }
}

pub fn nameless(types: &Types) -> FieldDef
    ensures { result ≡ spec.nameless types.now }
{
    FieldDef {
        name: u32::MAX,
        ty: types.number_of(INT),
    }
}

#[tactic(auto, unfolding(crate::specs::Tally::has_fields))]
fn has_fields(types: &Types, fields: &[FieldDef], judged: &Checked<Sequence<FieldDef>>) -> bool
    ensures { result ≡ spec.has_fields types.now fields.now judged.now }
{
    match judged {
        Ok(judged) => same_fields(fields, judged.as_slice()),
        Err(_) => same_fields(fields, &[nameless(types)]),
    }
}

fn entry_at(parts: &Parts, kind: TagKind, number: u32) -> Option<&TagDef>
    ensures { option_copied result ≡ slice_get (spec.entries parts.now kind) number }
{
    match kind {
        TagKind::Struct => parts.structs.as_slice().get(number as usize),
        TagKind::Union => parts.unions.as_slice().get(number as usize),
    }
}

#[tactic(auto, unfolding(crate::specs::Tally::has_entry))]
fn has_entry(types: &Types, tag: Tag, name: u32, judged: &Checked<Sequence<FieldDef>>) -> bool
    ensures { result ≡ spec.has_entry types.now tag name judged.now }
{
    match entry_at(types.parts(), tag.kind, tag.number) {
        None => false,
        Some(entry) => entry.tag == name && has_fields(types, entry.fields.as_slice(), judged),
    }
}

fn is_message(types: &Types, entry: &TagDef, array: TyId) -> bool
    ensures { result ≡ (nat_eq entry.now.tag 0 && spec.same_fields entry.now.fields (spec.message_fields_of (denoted.number types.now int_type) array)) }
{
    let int = types.number_of(INT);
    let fields = [
        FieldDef { name: 1, ty: int },
        FieldDef { name: 2, ty: int },
        FieldDef { name: 3, ty: array },
    ];
    entry.tag == 0 && same_fields(entry.fields.as_slice(), &fields)
}

fn has_message(types: &Types) -> bool
    ensures { result ≡ spec.has_message types.now }
{
    let array = Ty::Array(types.number_of(INT), 6);
    has_type(types, array)
        && match entry_at(types.parts(), TagKind::Struct, 0) {
            None => false,
            Some(entry) => is_message(types, entry, types.number_of(array)),
        }
}

#[tactic(auto, unfolding(crate::specs::Tally::has_record))]
fn has_record(
    alloc: Global,
    scope: &Scope,
    table: &TypeTable,
    tag: Tag,
    name: &Name,
    kind: TagKind,
    fields: &[Named],
) -> Result<bool, AllocError>
    requires { table.now ≡ scope.now.types }
    ensures { IfOk result (λ has. has ≡ spec.has_record scope.now tag name.now kind (objects fields.now)) }
{
    let judged = record_fields(alloc, scope, table, kind, fields)?;
    let number = name_number(scope, name)?;
    if has_entry(&scope.types, tag, number, &judged) {
        has_arrays(alloc, scope, table, fields)
    } else {
        Ok(false)
    }
}

fn with_record(tally: Tally, name: &Name, has_record: bool) -> Tally
    ensures tally { result ≡ spec.tally (spec.declare_tag tally.scope name.now) (tally.holds && has_record) }
    ensures types { result.scope.types ≡ tally.scope.types }
    ensures names { result.scope.names ≡ tally.scope.names }
{
    let Tally { mut scope, holds } = tally;
    declare_tag(&mut scope, name);
    Tally {
        scope,
        holds: holds && has_record,
    }
}

fn without_tag(tally: Tally) -> Tally
    ensures { result ≡ spec.tally tally.scope false }
{
    Tally {
        scope: tally.scope,
        holds: false,
    }
}

fn tallied_record(
    alloc: Global,
    table: &TypeTable,
    tally: Tally,
    kind: TagKind,
    name: &Name,
    fields: &[Named],
) -> Result<Tally, AllocError>
    requires { table.now ≡ tally.scope.types }
    ensures tally { IfOk result (λ t. t ≡ spec.tallied_tag tally kind name.now (objects fields.now) (tag_of tally.scope name.now)) }
    ensures types { IfOk result (λ t. t.scope.types ≡ tally.scope.types) }
    ensures names { IfOk result (λ t. t.scope.names ≡ tally.scope.names) }
{
    match tally.scope.tag_of(name) {
        None => Ok(without_tag(tally)),
        Some(tag) => {
            if tag.is_declared {
                return Ok(tally);
            }
            let has_record = has_record(alloc, &tally.scope, table, tag, name, kind, fields)?;
            Ok(with_record(tally, name, has_record))
        }
    }
}

fn tallied_global(
    alloc: Global,
    table: &TypeTable,
    tally: Tally,
    named: &Named,
) -> Result<Tally, AllocError>
    requires { table.now ≡ tally.scope.types }
    ensures { IfOk result (λ t. t ≡ spec.tally tally.scope (tally.holds && spec.has_array tally.scope.types (decl_records.small_type tally.scope (object_tree named.now)))) }
{
    let ty = small_type(alloc, &tally.scope, table, named)?;
    let has_array = has_array(&tally.scope.types, ty);
    Ok(Tally {
        scope: tally.scope,
        holds: tally.holds && has_array,
    })
}

#[tactic(auto, unfolding(crate::specs::Tally::tallied))]
fn tallied(alloc: Global, table: &TypeTable, tally: Tally, decl: &Decl) -> Result<Tally, AllocError>
    requires { table.now ≡ tally.scope.types }
    ensures tally { IfOk result (λ t. t ≡ spec.tallied tally (declaration decl.now)) }
    ensures types { IfOk result (λ t. t.scope.types ≡ tally.scope.types) }
    ensures names { IfOk result (λ t. t.scope.names ≡ tally.scope.names) }
{
    match decl {
        Decl::Record(kind, name, fields) => {
            tallied_record(alloc, table, tally, *kind, name, fields.as_slice())
        }
        Decl::Global(named, _) => tallied_global(alloc, table, tally, named),
        Decl::Prototype(_, _, _) => Ok(tally),
        Decl::Function(_, _, _, _) => Ok(tally),
    }
}

fn tallied_all(
    alloc: Global,
    table: &TypeTable,
    tally: Tally,
    decls: &[Decl],
) -> Result<Tally, AllocError>
    requires { table.now ≡ tally.scope.types }
    ensures tally { IfOk result (λ t. t ≡ spec.tallied_all tally (declarations decls.now)) }
    ensures names { IfOk result (λ t. t.scope.names ≡ tally.scope.names) }
{
    let mut so_far = tally;
    for decl in decls {
        so_far = tallied(alloc, table, so_far, decl)?;
    }
    Ok(so_far)
}

fn first_tally(scope: Scope) -> Tally
    ensures tally { result ≡ spec.first_tally scope }
    ensures scope { result.scope ≡ scope }
{
    let holds = has_message(&scope.types);
    Tally { scope, holds }
}

/// Whether the table of a scope has the structs, unions and arrays of a text, where the scope is that before the text.
/// The names of the scope are given back.
pub fn has_records(
    alloc: Global,
    table: &TypeTable,
    scope: Scope,
    decls: &[Decl],
) -> Result<Tally, AllocError>
    requires { table.now ≡ scope.types }
    ensures holds { IfOk result (λ t. t.holds ≡ spec.has_records scope (declarations decls.now)) }
    ensures names { IfOk result (λ t. t.scope.names ≡ scope.names) }
{
    tallied_all(alloc, table, first_tally(scope), decls)
}
