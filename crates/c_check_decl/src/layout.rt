// The sizes of structs and unions, from those of their fields.

ghost use Rattle.std.specs.Prelude.{◌≡◌, ◌+◌, ◌<◌, ◌≤◌, ◌^◌};
ghost use Rattle.c_ast.specs.declared.types.TagKind.TheVariants.{Struct, Union};
ghost use Rattle.c_types.specs.Layout as layout;
ghost use Rattle.c_check_decl.specs.Records as spec;

use crate::shaped::Shaped;
use c_ast::types::TagKind;
use c_types::{FieldDef, TyId};

/// The bytes of a union's member number.
const MEMBER_NUMBER_SIZE: u32 = 4;

/// The least multiple of an alignment that is at least n.
fn next_multiple(n: u128, align: u32) -> u128
    requires { n < 2 ^ 112 }
    ensures value { result ≡ layout.next_multiple n align }
    ensures bound { result ≤ n + 2 ^ 32 }
{
    if align == 0 {
        return 0;
    }
    let align = align as u128;
    (n + (align - 1)) / align * align
}

/// Where a field of this type ends that comes after `end`.
fn field_end<S: Shaped>(shapes: &S, ty: TyId, end: u128) -> u128
    requires { end < 2 ^ 112 }
    ensures value { result ≡ layout.next_multiple end (S.shapes shapes.now ty).align + (S.shapes shapes.now ty).size }
    ensures bound { result ≤ end + 2 ^ 33 }
{
    next_multiple(end, shapes.alignment_of(ty)) + shapes.bytes_of(ty) as u128
}

/// Where fields end, in bytes from the first.
fn fields_end<S: Shaped>(shapes: &S, fields: &[FieldDef]) -> u128
    ensures value { result ≡ layout.fields_end (S.shapes shapes.now) 0 fields.now }
    ensures bound { result < 2 ^ 112 }
{
    let mut end = 0;
    for field in fields {
        end = field_end(shapes, field.ty, end);
    }
    end
}

fn greatest_align<S: Shaped>(shapes: &S, fields: &[FieldDef]) -> u32
    ensures { result ≡ layout.greatest_align (S.shapes shapes.now) fields.now }
{
    let mut greatest = 0;
    for field in fields {
        greatest = shapes.alignment_of(field.ty).max(greatest);
    }
    greatest.max(1)
}

fn greatest_size<S: Shaped>(shapes: &S, fields: &[FieldDef]) -> u32
    ensures { result ≡ layout.greatest_size (S.shapes shapes.now) fields.now }
{
    let mut greatest = 0;
    for field in fields {
        greatest = shapes.bytes_of(field.ty).max(greatest);
    }
    greatest
}

fn struct_size<S: Shaped>(shapes: &S, fields: &[FieldDef]) -> u128
    ensures { result ≡ (spec.record_shape (S.shapes shapes.now) Struct fields.now).size }
{
    next_multiple(fields_end(shapes, fields), greatest_align(shapes, fields))
}

fn union_size<S: Shaped>(shapes: &S, members: &[FieldDef]) -> u128
    ensures { result ≡ (spec.record_shape (S.shapes shapes.now) Union members.now).size }
{
    let align = greatest_align(shapes, members);
    let start = next_multiple(MEMBER_NUMBER_SIZE as u128, align);
    let end = start + greatest_size(shapes, members) as u128;
    next_multiple(end, MEMBER_NUMBER_SIZE.max(align))
}

/// The bytes of a struct or union with these fields.
pub fn record_size<S: Shaped>(shapes: &S, kind: TagKind, fields: &[FieldDef]) -> u128
    ensures { result ≡ (spec.record_shape (S.shapes shapes.now) kind fields.now).size }
{
    match kind {
        TagKind::Struct => struct_size(shapes, fields),
        TagKind::Union => union_size(shapes, fields),
    }
}

/// Its alignment in bytes.
pub fn record_align<S: Shaped>(shapes: &S, kind: TagKind, fields: &[FieldDef]) -> u32
    ensures { result ≡ (spec.record_shape (S.shapes shapes.now) kind fields.now).align }
{
    let greatest = greatest_align(shapes, fields);
    match kind {
        TagKind::Struct => greatest,
        TagKind::Union => MEMBER_NUMBER_SIZE.max(greatest),
    }
}
