// Shapes and marks of all types, by rounds over the whole table until nothing changes.

ghost use Rattle.std.specs.Prelude.{◌≡◌, map, replicate, length, IsTrue, IfOk};
ghost use Rattle.std.specs.List.{list_any};
ghost use Rattle.c_types.specs.Numbering.{is_well_numbered};
ghost use Rattle.c_types.specs.Rounds.{shape_at, shape_rounds, round_shape, AreSmall, is_marked, round_mark, mark_rounds};

use crate::parts::{FieldDef, Parts, Ty, TyId};
use crate::shape::{Shape, type_shape};
use std::alloc::{AllocError, Global};

/// One value for each of n types.
fn one_each<T: Copy>(alloc: Global, value: T, count: usize) -> Result<Vec<T>, AllocError>
    ensures { IfOk result (λ all. all.items ≡ replicate count value) }
{
    let mut all = Vec::new(alloc);
    for _ in 0..count {
        all.push(value)?;
    }
    Ok(all)
}

fn next_shapes(alloc: Global, parts: &Parts, shapes: &[Shape]) -> Result<Vec<Shape>, AllocError>
    requires numbered { IsTrue (is_well_numbered parts.now) }
    requires known { AreSmall (shape_at shapes.now) }
    ensures value { IfOk result (λ next. next.items
        ≡ map (round_shape parts.now shapes.now) parts.now.types) }
    ensures small { IfOk result (λ next. AreSmall (shape_at next.items)) }
{
    let mut next = Vec::new(alloc);
    for ty in parts.types.as_slice() {
        next.push(type_shape(parts, shapes, *ty))?;
    }
    Ok(next)
}

fn same_shapes(a: &[Shape], b: &[Shape]) -> bool
    ensures { IsTrue result → a.now ≡ b.now }
{
    a == b
}

/// The shapes of all types, with sizes above the greatest kept as the next number.
pub fn all_shapes(alloc: Global, parts: &Parts) -> Result<Vec<Shape>, AllocError>
    requires { IsTrue (is_well_numbered parts.now) }
    ensures value { IfOk result (λ shapes. shapes.items
        ≡ shape_rounds parts.now (length parts.now.types)) }
    ensures small { IfOk result (λ shapes. AreSmall (shape_at shapes.items)) }
{
    let count = parts.types.as_slice().len();
    let mut shapes = one_each(alloc, Shape { size: 0, align: 1 }, count)?;
    for _ in 0..count {
        let next = next_shapes(alloc, parts, &shapes)?;
        if same_shapes(&next, &shapes) {
            return Ok(shapes);
        }
        shapes = next;
    }
    Ok(shapes)
}

fn is_marked(target: Option<TyId>, marks: &[bool], number: TyId) -> bool
    ensures { result ≡ is_marked target marks.now number }
{
    if target == Some(number) {
        return true;
    }
    match marks.get(number as usize) {
        None => false,
        Some(mark) => *mark,
    }
}

fn holds_marked(target: Option<TyId>, marks: &[bool], fields: &[FieldDef]) -> bool
    ensures { result ≡ list_any (λ f. is_marked target marks.now f.ty) fields.now }
{
    fields
        .iter()
        .any(|field| is_marked(target, marks, field.ty))
}

fn round_mark(parts: &Parts, target: Option<TyId>, marks: &[bool], ty: Ty) -> bool
    ensures { result ≡ round_mark parts.now target marks.now ty }
{
    match ty {
        Ty::Struct(number) => holds_marked(target, marks, parts.fields_of(number)),
        Ty::Union(number) => holds_marked(target, marks, parts.members_of(number)),
        Ty::Array(element, _) => is_marked(target, marks, element),
        _ => false,
    }
}

fn next_marks(
    alloc: Global,
    parts: &Parts,
    target: Option<TyId>,
    marks: &[bool],
) -> Result<Vec<bool>, AllocError>
    ensures { IfOk result (λ next. next.items
        ≡ map (round_mark parts.now target marks.now) parts.now.types) }
{
    let mut next = Vec::new(alloc);
    for ty in parts.types.as_slice() {
        next.push(round_mark(parts, target, marks, *ty))?;
    }
    Ok(next)
}

fn same_marks(a: &[bool], b: &[bool]) -> bool
    ensures { IsTrue result → a.now ≡ b.now }
{
    a == b
}

/// Marks the types that hold the target, or a type that is marked, by as many rounds as there are
/// types. Before the first round each type is marked, or none.
pub fn all_marks(
    alloc: Global,
    parts: &Parts,
    target: Option<TyId>,
    start: bool,
) -> Result<Vec<bool>, AllocError>
    ensures { IfOk result (λ marks. marks.items
        ≡ mark_rounds parts.now target start (length parts.now.types)) }
{
    let count = parts.types.as_slice().len();
    let mut marks = one_each(alloc, start, count)?;
    for _ in 0..count {
        let next = next_marks(alloc, parts, target, &marks)?;
        if same_marks(&next, &marks) {
            return Ok(marks);
        }
        marks = next;
    }
    Ok(marks)
}
