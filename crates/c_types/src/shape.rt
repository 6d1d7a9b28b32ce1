// The shape of one type, from those of the types that it holds.

ghost use Rattle.std.specs.Prelude.{◌≡◌, ◌+◌, ◌-◌, ◌*◌, ◌<◌, ◌≤◌, ◌^◌, length, IsTrue};
ghost use Rattle.c_types.specs.Numbering.{is_well_numbered};
ghost use Rattle.c_types.specs.Layout.{greatest, shape, next_multiple, int_size, greatest_align, greatest_size, fields_end, members_start, struct_shape, union_shape};
ghost use Rattle.c_types.specs.Rounds.{shape_at, capped, round_shape, IsSmall, AreSmall};

use crate::parts::{FieldDef, IntKind, Parts, Ty, TyId};

/// The greatest size of a type in bytes, and the greatest length of an array.
pub const GREATEST: u32 = 1_048_576;

/// The bytes of a union's member number.
const MEMBER_NUMBER_SIZE: u32 = 4;

/// Size and alignment, in bytes.
#[derive(Clone, Copy, Debug, PartialEq, Eq)]
pub struct Shape {
    pub size: u32,
    pub align: u32,
}

/// The shape of a type by its number.
pub fn shape_at(shapes: &[Shape], number: TyId) -> Shape
    ensures { result ≡ shape_at shapes.now number }
{
    match shapes.get(number as usize) {
        None => Shape { size: 0, align: 1 },
        Some(shape) => *shape,
    }
}

/// The least multiple of an alignment that is at least n.
pub fn next_multiple(n: u64, align: u32) -> u64
    requires n { n < 2 ^ 60 }
    requires low { 1 ≤ align }
    requires high { align ≤ 8 }
    ensures value { result ≡ next_multiple n align }
    ensures bound { result ≤ n + (align - 1) }
{
    let align = align as u64;
    (n + (align - 1)) / align * align
}

pub fn greatest_align(shapes: &[Shape], fields: &[FieldDef]) -> u32
    requires { AreSmall (shape_at shapes.now) }
    ensures value { result ≡ greatest_align (shape_at shapes.now) fields.now }
    ensures low { 1 ≤ result }
    ensures high { result ≤ 8 }
{
    let mut greatest = 1;
    for field in fields {
        greatest = shape_at(shapes, field.ty).align.max(greatest);
    }
    greatest
}

fn greatest_size(shapes: &[Shape], fields: &[FieldDef]) -> u32
    requires { AreSmall (shape_at shapes.now) }
    ensures value { result ≡ greatest_size (shape_at shapes.now) fields.now }
    ensures bound { result ≤ greatest + 1 }
{
    let mut greatest = 0;
    for field in fields {
        greatest = shape_at(shapes, field.ty).size.max(greatest);
    }
    greatest
}

/// Where a field ends that comes after `end`.
fn field_end(shape: Shape, end: u64) -> u64
    requires small { IsSmall shape }
    requires end { end < 2 ^ 60 }
    ensures value { result ≡ next_multiple end shape.align + shape.size }
    ensures bound { result ≤ end + 2 ^ 21 }
{
    next_multiple(end, shape.align) + shape.size as u64
}

/// Where fields end, in bytes from the first.
pub fn fields_end(shapes: &[Shape], fields: &[FieldDef]) -> u64
    requires known { AreSmall (shape_at shapes.now) }
    requires count { length fields.now < 2 ^ 32 }
    ensures value { result ≡ fields_end (shape_at shapes.now) 0 fields.now }
    ensures bound { result < 2 ^ 60 }
{
    let mut end = 0;
    for field in fields {
        end = field_end(shape_at(shapes, field.ty), end);
    }
    end
}

fn capped(size: u64, align: u32) -> Shape
    ensures { result ≡ capped (shape size align) }
{
    Shape {
        size: size.min(GREATEST as u64 + 1) as u32,
        align,
    }
}

fn struct_shape(shapes: &[Shape], fields: &[FieldDef]) -> Shape
    requires known { AreSmall (shape_at shapes.now) }
    requires count { length fields.now < 2 ^ 32 }
    ensures value { result ≡ capped (struct_shape (shape_at shapes.now) fields.now) }
    ensures small { IsSmall result }
{
    let align = greatest_align(shapes, fields);
    capped(next_multiple(fields_end(shapes, fields), align), align)
}

/// Where the members of a union begin.
pub fn members_start(shapes: &[Shape], members: &[FieldDef]) -> u32
    requires { AreSmall (shape_at shapes.now) }
    ensures value { result ≡ members_start (shape_at shapes.now) members.now }
    ensures bound { result ≤ 11 }
{
    let align = greatest_align(shapes, members);
    next_multiple(MEMBER_NUMBER_SIZE as u64, align) as u32
}

fn union_shape(shapes: &[Shape], members: &[FieldDef]) -> Shape
    requires { AreSmall (shape_at shapes.now) }
    ensures value { result ≡ capped (union_shape (shape_at shapes.now) members.now) }
    ensures small { IsSmall result }
{
    let align = MEMBER_NUMBER_SIZE.max(greatest_align(shapes, members));
    let end = members_start(shapes, members) + greatest_size(shapes, members);
    capped(next_multiple(end as u64, align), align)
}

fn int_size(kind: IntKind) -> u32
    ensures value { result ≡ int_size kind }
    ensures low { 1 ≤ result }
    ensures high { result ≤ 8 }
{
    match kind {
        IntKind::Char | IntKind::UChar => 1,
        IntKind::Short | IntKind::UShort => 2,
        IntKind::Int | IntKind::UInt => 4,
        IntKind::LongLong | IntKind::ULongLong => 8,
    }
}

fn int_shape(kind: IntKind) -> Shape
    ensures value { result ≡ capped (shape (int_size kind) (int_size kind)) }
    ensures small { IsSmall result }
{
    let size = int_size(kind);
    Shape { size, align: size }
}

fn array_shape(element: Shape, count: u32) -> Shape
    requires { IsSmall element }
    ensures value { result ≡ capped (shape (element.size * count) element.align) }
    ensures small { IsSmall result }
{
    capped(element.size as u64 * count as u64, element.align)
}

/// The shape of a type, where `shapes` has those of the types that it holds.
pub fn type_shape(parts: &Parts, shapes: &[Shape], ty: Ty) -> Shape
    requires numbered { IsTrue (is_well_numbered parts.now) }
    requires known { AreSmall (shape_at shapes.now) }
    ensures value { result ≡ round_shape parts.now shapes.now ty }
    ensures small { IsSmall result }
{
    match ty {
        Ty::Int(kind) => int_shape(kind),
        Ty::Pointer(_) | Ty::VoidPointer | Ty::Function(_) => Shape {
            size: parts.pointer,
            align: parts.pointer,
        },
        Ty::Struct(number) => struct_shape(shapes, parts.fields_of(number)),
        Ty::Union(number) => union_shape(shapes, parts.members_of(number)),
        Ty::Array(element, count) => array_shape(shape_at(shapes, element), count),
    }
}
