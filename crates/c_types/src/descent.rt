// Parts of types: where a step leads, and which part has a byte.

ghost use Rattle.std.specs.Prelude.{◌≡◌, ◌+◌, ◌-◌, ◌<◌, ◌≤◌, ◌^◌, length, Some, None, IfSome, nat_lt, if◌then◌else◌, slice_get};
ghost use Rattle.lu_spec.specs.Then.{then_option};
ghost use Rattle.c_types.specs.declared.path.Step.TheVariants as Step;
ghost use Rattle.c_types.specs.declared.parts.Ty.TheVariants as Ty;
ghost use Rattle.c_types.specs.Layout.{greatest, size_of, nth_start};
ghost use Rattle.c_types.specs.Rounds.{shape_at, AreSmall};
ghost use Rattle.c_types.specs.Kept.{IsKept};
ghost use Rattle.c_types.specs.Place.{shifted, step_place, path_place};
ghost use Rattle.c_types.specs.Descent.{part, part_in_fields, part_in_array, part_at};

use crate::parts::{FieldDef, Parts, Ty, TyId};
use crate::path::{Place, Step};
use crate::shape::{Shape, fields_end, members_start, next_multiple, shape_at};

/// A part of a type, and an offset in it in bytes.
#[derive(Clone, Copy, Debug, PartialEq, Eq)]
pub struct Part {
    pub step: Step,
    pub ty: TyId,
    pub rest: u32,
}

/// A field by its number.
fn nth_field(fields: &[FieldDef], number: u32) -> Option<FieldDef>
    ensures { result ≡ slice_get fields.now number }
{
    match fields.get(number as usize) {
        None => None,
        Some(field) => Some(*field),
    }
}

/// Where a field begins.
fn nth_start(shapes: &[Shape], fields: &[FieldDef], number: u32, field: FieldDef) -> u64
    requires known { AreSmall (shape_at shapes.now) }
    requires count { length fields.now < 2 ^ 32 }
    requires field { slice_get fields.now number ≡ Some field }
    ensures { result ≡ nth_start (shape_at shapes.now) 0 fields.now number }
{
    let end = fields_end(shapes, &fields[..number as usize]);
    next_multiple(end, shape_at(shapes, field.ty).align)
}

/// A field of a struct type; none where the type is no struct.
fn field_place(parts: &Parts, shapes: &[Shape], number: TyId, k: u32) -> Option<Place>
    requires { IsKept parts.now shapes.now }
    ensures { result
        ≡ step_place parts.now (slice_get parts.now.types number) (Step.Field k) }
{
    let Some(Ty::Struct(tag)) = parts.find_type(number) else {
        return None;
    };
    let fields = parts.fields_of(tag);
    let field = nth_field(fields, k)?;
    Some(Place {
        ty: field.ty,
        offset: nth_start(shapes, fields, k, field) as u32,
    })
}

/// A member of a union type; none where the type is no union.
fn member_place(parts: &Parts, shapes: &[Shape], number: TyId, k: u32) -> Option<Place>
    requires { IsKept parts.now shapes.now }
    ensures { result
        ≡ step_place parts.now (slice_get parts.now.types number) (Step.Member k) }
{
    let Some(Ty::Union(tag)) = parts.find_type(number) else {
        return None;
    };
    let members = parts.members_of(tag);
    let member = nth_field(members, k)?;
    Some(Place {
        ty: member.ty,
        offset: members_start(shapes, members),
    })
}

/// An element of an array type; none where the type is no array.
fn element_place(parts: &Parts, shapes: &[Shape], number: TyId, k: u32) -> Option<Place>
    requires { IsKept parts.now shapes.now }
    ensures { result
        ≡ step_place parts.now (slice_get parts.now.types number) (Step.Index k) }
{
    let Some(Ty::Array(element, count)) = parts.find_type(number) else {
        return None;
    };
    if k < count {
        Some(Place {
            ty: element,
            offset: k * shape_at(shapes, element).size,
        })
    } else {
        None
    }
}

/// The place to which a step leads from a type, if the type has it.
fn step_place(parts: &Parts, shapes: &[Shape], number: TyId, step: Step) -> Option<Place>
    requires { IsKept parts.now shapes.now }
    ensures { result ≡ step_place parts.now (slice_get parts.now.types number) step }
{
    match step {
        Step::Index(k) => element_place(parts, shapes, number, k),
        Step::Field(k) => field_place(parts, shapes, number, k),
        Step::Member(k) => member_place(parts, shapes, number, k),
    }
}

/// The place one step on from a place.
fn next_place(parts: &Parts, shapes: &[Shape], at: Place, step: Step) -> Option<Place>
    requires kept { IsKept parts.now shapes.now }
    requires inside { at.offset + size_of parts.now at.ty ≤ greatest }
    ensures value { result ≡ then_option
        (step_place parts.now (slice_get parts.now.types at.ty) step)
        (shifted at.offset) }
    ensures inside { IfSome result
        (λ to. to.offset + size_of parts.now to.ty ≤ greatest) }
{
    match step_place(parts, shapes, at.ty, step) {
        None => None,
        Some(to) => Some(Place {
            ty: to.ty,
            offset: at.offset + to.offset,
        }),
    }
}

/// The place to which a path leads in a type, if it is a path of the type.
pub fn path_place(parts: &Parts, shapes: &[Shape], number: TyId, path: &[Step]) -> Option<Place>
    requires { IsKept parts.now shapes.now }
    ensures { result ≡ path_place parts.now number path.now }
{
    let mut at = Place {
        ty: number,
        offset: 0,
    };
    for step in path {
        match next_place(parts, shapes, at, *step) {
            None => return None,
            Some(next) => at = next,
        }
    }
    Some(at)
}

/// A field that begins at `start`, unless the offset comes before.
fn part_from(start: u64, offset: u32, number: u32, ty: TyId) -> Option<Part>
    ensures { result ≡ (if nat_lt offset start
        then None else Some (part (Step.Field number) ty (offset - start))) }
{
    if (offset as u64) < start {
        None
    } else {
        Some(Part {
            step: Step::Field(number),
            ty,
            rest: offset - start as u32,
        })
    }
}

/// The field that has a byte.
fn part_in_fields(shapes: &[Shape], fields: &[FieldDef], offset: u32) -> Option<Part>
    requires known { AreSmall (shape_at shapes.now) }
    requires count { length fields.now < 2 ^ 32 }
    ensures { result ≡ part_in_fields (shape_at shapes.now) 0 fields.now 0 offset }
{
    let mut end = 0;
    for (number, field) in fields.iter().enumerate() {
        let shape = shape_at(shapes, field.ty);
        let start = next_multiple(end, shape.align);
        end = start + shape.size as u64;
        if (offset as u64) < end {
            return part_from(start, offset, number as u32, field.ty);
        }
    }
    None
}

/// The element that has a byte, in elements of a size in bytes.
pub fn part_in_array(element: TyId, size: u32, count: u32, offset: u32) -> Option<Part>
    requires { 0 < size }
    ensures { result ≡ part_in_array element size count offset }
{
    let number = offset / size;
    if number < count {
        Some(Part {
            step: Step::Index(number),
            ty: element,
            rest: offset % size,
        })
    } else {
        None
    }
}

/// The part of a struct or an array that has a byte.
pub fn part_at(parts: &Parts, shapes: &[Shape], number: TyId, offset: u32) -> Option<Part>
    requires { IsKept parts.now shapes.now }
    ensures { result ≡ part_at parts.now offset (slice_get parts.now.types number) }
{
    match parts.find_type(number) {
        Some(Ty::Struct(tag)) => part_in_fields(shapes, parts.fields_of(tag), offset),
        Some(Ty::Array(element, count)) => {
            part_in_array(element, shape_at(shapes, element).size, count, offset)
        }
        _ => None,
    }
}
