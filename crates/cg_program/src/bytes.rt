// Values as bytes.

ghost use Rattle.std.specs.Prelude.{◌≡◌, ◌++◌, ◌≤◌, ◌<◌, ◌^◌, pos, OnOk, IfOk, IfSome, Some, slice_get};
ghost use Rattle.std.specs.Option.{option_map_or};
ghost use Rattle.lu_spec.specs.LittleEndian.{little_endian};
ghost use Rattle.c_types.specs.Recursion.{depth};
ghost use Rattle.c_types.specs.Tables.{members_of};
ghost use Rattle.c_types.specs.declared.parts.Ty.TheVariants as T;
ghost use Rattle.c_types.specs.Layout.{shape_of, align_of, int_size, next_multiple, greatest_align, members_start};
ghost use Rattle.src_tree.specs.declared.value.Value.{out-Value};
ghost use Rattle.src_meaning.specs.Integers.{bits_of, residue};
ghost use Rattle.src_meaning.specs.ValueBytes as spec;
ghost use Rattle.cg_program.specs.Parts.{fields_in, struct_bytes, active_in, body_in};

use c_types::{FieldDef, IntKind, Ty, TyId, TypeTable};
use cg_expr::target::sum;
use lu_base::Memory;
use sqlite_items::at;
use src_tree::value::Value;

/// The bytes of a union's member number.
const MEMBER_NUMBER_SIZE: u32 = 4;

/// What values are laid out by: the types, and the address of each object.
#[derive(Clone, Copy)]
pub struct Layout<'a> {
    pub types: &'a TypeTable,
    pub addresses: &'a [u32],
}

fn put_zeros(bytes: &mut Vec<u8>, count: u32) -> Result<(), Memory>
    ensures { OnOk result (bytes.new.items ≡ bytes.old.items ++ spec.zeros count) }
{
    for _index in 0..count {
        bytes.push(0)?;
    }
    Ok(())
}

/// So many bytes of a number, the lowest first.
fn put_number(bytes: &mut Vec<u8>, count: usize, number: u64) -> Result<(), Memory>
    requires { count ≤ 8 }
    ensures { OnOk result (bytes.new.items ≡ bytes.old.items ++ little_endian count number) }
{
    let all = number.to_le_bytes();
    bytes.extend_from_slice(&all[..count])?;
    Ok(())
}

fn int_size(kind: IntKind) -> usize
    ensures value { result ≡ int_size kind }
    ensures bound { result ≤ 8 }
{
    match kind {
        IntKind::Char | IntKind::UChar => 1,
        IntKind::Short | IntKind::UShort => 2,
        IntKind::Int | IntKind::UInt => 4,
        IntKind::LongLong | IntKind::ULongLong => 8,
    }
}

/// One more than the greatest unsigned number of a kind.
fn modulus(kind: IntKind) -> i128
    ensures { result ≡ pos (2 ^ bits_of kind) }
{
    match kind {
        IntKind::Char | IntKind::UChar => 0x100,
        IntKind::Short | IntKind::UShort => 0x1_0000,
        IntKind::Int | IntKind::UInt => 0x1_0000_0000,
        IntKind::LongLong | IntKind::ULongLong => 0x1_0000_0000_0000_0000,
    }
}

/// An integer modulo the range of a kind.
fn residue(kind: IntKind, z: i128) -> u64
    ensures { result ≡ residue kind z }
{
    z.rem_euclid(modulus(kind)) as u64
}

/// An integer modulo the range of a kind; 0 where the value is no integer.
fn int_in(kind: IntKind, value: &Value) -> u64
    ensures { result ≡ spec.int_in kind (out-Value value.now) }
{
    match value {
        Value::Int(z) => residue(kind, *z),
        _ => 0,
    }
}

/// The address of an object; 0 where there is no such one.
fn address_of(addresses: &[u32], object: u32) -> u32
    ensures { result ≡ option_map_or (λ a. a) (slice_get addresses.now object) 0 }
{
    match addresses.get(object as usize) {
        Some(address) => *address,
        None => 0,
    }
}

/// The word of a pointer; 0 where the value is none.
fn pointer_in(addresses: &[u32], value: &Value) -> u64
    ensures { result ≡ spec.pointer_in addresses.now (out-Value value.now) }
{
    match value {
        Value::Pointer(object, offset) => address_of(addresses, *object) as u64 + *offset as u64,
        Value::Function(number) => *number as u64 + 1,
        _ => 0,
    }
}

/// The fields of a struct or the elements of an array; none of any other value.
fn parts_in(value: &Value) -> &[Value]
    ensures { result.now ≡ spec.parts_in (out-Value value.now) }
{
    match value {
        Value::Struct(fields) => fields.as_slice(),
        Value::Array(items) => items.as_slice(),
        _ => &[],
    }
}

/// The number of a union's active member; none of any other value.
fn active_in(value: &Value) -> Option<u32>
    ensures { result ≡ active_in (out-Value value.now) }
{
    match value {
        Value::Union(active, _) => Some(*active),
        _ => None,
    }
}

/// The value of a union's active member; any other value is its own.
fn body_in(value: &Value) -> &Value
    ensures { result.now ≡ body_in value.now (out-Value value.now) }
{
    match value {
        Value::Union(_, body) => body.get(),
        _ => value,
    }
}

/// The least multiple of an alignment that is at least n.
fn next_multiple(n: u32, align: u32) -> Result<u32, Memory>
    requires { 1 ≤ align }
    ensures { IfOk result (λ m. m ≡ next_multiple n align) }
{
    Ok(sum(n, align - 1)? / align * align)
}

/// The fields of a struct or the members of a union; no other type has any.
fn fields_in(types: &TypeTable, number: TyId) -> &[FieldDef]
    ensures { result.now ≡ fields_in types.now (slice_get types.now.types number) }
{
    let parts = types.parts();
    match parts.find_type(number) {
        Some(Ty::Struct(tag)) => parts.fields_of(tag),
        Some(Ty::Union(tag)) => parts.members_of(tag),
        _ => &[],
    }
}

/// A field of a struct, or a member of a union. None where there is no such one.
fn field_at(types: &TypeTable, number: TyId, index: usize) -> Option<FieldDef>
    ensures value { result ≡ slice_get (fields_in types.now (slice_get types.now.types number)) index }
    ensures falls { IfSome result (λ f. depth types.now f.ty < depth types.now number) }
{
    let _parts = types.parts();
    at(fields_in(types, number), index).copied()
}

fn align_of(types: &TypeTable, number: TyId) -> u32
    ensures value { result ≡ align_of types.now number }
    ensures low { 1 ≤ result }
{
    let _parts = types.parts();
    types.align_of(number)
}

fn greatest_align(types: &TypeTable, members: &[FieldDef]) -> u32
    ensures value { result ≡ greatest_align (shape_of types.now) members.now }
    ensures low { 1 ≤ result }
{
    let mut greatest = 1;
    for member in members {
        greatest = align_of(types, member.ty).max(greatest);
    }
    greatest
}

/// Where the members of a union begin.
fn members_start(types: &TypeTable, number: TyId) -> Result<u32, Memory>
    ensures { IfOk result (λ start. start ≡ members_start (shape_of types.now) (fields_in types.now (slice_get types.now.types number))) }
{
    next_multiple(
        MEMBER_NUMBER_SIZE,
        greatest_align(types, fields_in(types, number)),
    )
}

/// Puts the word of a pointer.
fn put_pointer(bytes: &mut Vec<u8>, layout: &Layout, value: &Value) -> Result<(), Memory>
    ensures { OnOk result (bytes.new.items ≡ bytes.old.items
        ++ little_endian layout.now.types.now.pointer (spec.pointer_in layout.now.addresses.now (out-Value value.now))) }
{
    let size = layout.types.pointer() as usize;
    put_number(bytes, size, pointer_in(layout.addresses, value))
}

/// Puts the bytes of a value of a type behind those that stand already. After an error they are to be dropped.
#[cycle(put_value)]
fn put_value(
    bytes: &mut Vec<u8>,
    layout: &Layout,
    number: TyId,
    value: &Value,
) -> Result<(), Memory>
    ensures { OnOk result (bytes.new.items ≡ bytes.old.items ++ spec.bytes_of layout.now.types.now layout.now.addresses.now number value.now) }
{
    match layout.types.parts().find_type(number) {
        None => Ok(()),
        Some(Ty::Int(kind)) => put_number(bytes, int_size(kind), int_in(kind, value)),
        Some(Ty::Pointer(_)) => put_pointer(bytes, layout, value),
        Some(Ty::VoidPointer) => put_pointer(bytes, layout, value),
        Some(Ty::Function(_)) => put_pointer(bytes, layout, value),
        Some(Ty::Struct(_)) => put_struct(bytes, layout, number, parts_in(value)),
        Some(Ty::Union(tag)) => put_union(bytes, layout, number, tag, value),
        Some(Ty::Array(elem, _)) => put_items(bytes, layout, elem, parts_in(value)),
    }
}

/// Puts the fields of a struct, each at its offset, with zeros between and behind them.
#[cycle(put_value)]
fn put_struct(
    bytes: &mut Vec<u8>,
    layout: &Layout,
    number: TyId,
    values: &[Value],
) -> Result<(), Memory>
    ensures { OnOk result (bytes.new.items ≡ bytes.old.items ++ struct_bytes layout.now.types.now layout.now.addresses.now number values.now) }
{
    let mut end = 0;
    for (index, value) in values.iter().enumerate() {
        if let Some(field) = field_at(layout.types, number, index) {
            let start = next_multiple(end, align_of(layout.types, field.ty))?;
            put_zeros(bytes, start.saturating_sub(end))?;
            put_value(bytes, layout, field.ty, value)?;
            end = sum(start, layout.types.size_of(field.ty))?;
        }
    }
    put_zeros(bytes, layout.types.size_of(number).saturating_sub(end))
}

/// Puts the number of a union's active member and the member's value, with zeros between and behind them.
#[cycle(put_value)]
fn put_union(
    bytes: &mut Vec<u8>,
    layout: &Layout,
    number: TyId,
    tag: u32,
    value: &Value,
) -> Result<(), Memory>
    requires { slice_get layout.now.types.now.types number ≡ Some (T.Union tag) }
    ensures { OnOk result (bytes.new.items ≡ bytes.old.items
        ++ spec.union_bytes (shape_of layout.now.types.now) (spec.bytes_of layout.now.types.now layout.now.addresses.now)
        (members_of layout.now.types.now tag) (out-Value value.now)) }
{
    let _parts = layout.types.parts();
    let size = layout.types.size_of(number);
    match active_in(value) {
        None => put_zeros(bytes, size),
        Some(active) => {
            let start = members_start(layout.types, number)?;
            put_number(bytes, MEMBER_NUMBER_SIZE as usize, active as u64)?;
            put_zeros(bytes, start.saturating_sub(MEMBER_NUMBER_SIZE))?;
            let Some(member) = field_at(layout.types, number, active as usize) else {
                return put_zeros(bytes, size.saturating_sub(start));
            };
            put_value(bytes, layout, member.ty, body_in(value))?;
            let end = sum(start, layout.types.size_of(member.ty))?;
            put_zeros(bytes, size.saturating_sub(end))
        }
    }
}

/// Puts values of one type, one behind the other. After an error the bytes are to be dropped.
#[cycle(put_value)]
pub fn put_items(
    bytes: &mut Vec<u8>,
    layout: &Layout,
    elem: TyId,
    values: &[Value],
) -> Result<(), Memory>
    ensures { OnOk result (bytes.new.items ≡ bytes.old.items ++ spec.elements_bytes layout.now.types.now layout.now.addresses.now elem values.now) }
{
    for value in values {
        put_value(bytes, layout, elem, value)?;
    }
    Ok(())
}
