// What a valid program's table of types holds.

ghost use Rattle.std.specs.Prelude.{◌≡◌, ◌++◌};
ghost use Rattle.std.specs.List.{list_all, list_any};
ghost use Rattle.src_meaning.specs.ValidTypes.{ty};
ghost use Rattle.src_meaning.specs.ValidTable as spec;

use crate::valid_types::{has_stars, is_array};
use c_types::{IntKind, Parts, Ty};
use src_meaning::validity::Kind;

/// The most stars over a type whose pointer type the table holds.
const GREATEST_STARS: u32 = 8;
/// The types before the structs in a table in its usual order: the integer types with nine pointer types each, and `void *`
/// with eight.
const BASE_TYPES: usize = 89;
/// A type and the pointer types of at most nine stars over it.
const WITH_POINTERS: usize = 10;

fn same_kind(a: IntKind, b: IntKind) -> bool
    ensures { result ≡ spec.same_kind a b }
{
    match (a, b) {
        (IntKind::Char, IntKind::Char) | (IntKind::UChar, IntKind::UChar) => true,
        (IntKind::Short, IntKind::Short) | (IntKind::UShort, IntKind::UShort) => true,
        (IntKind::Int, IntKind::Int) | (IntKind::UInt, IntKind::UInt) => true,
        (IntKind::LongLong, IntKind::LongLong) => true,
        (IntKind::ULongLong, IntKind::ULongLong) => true,
        _ => false,
    }
}

fn is_of_kind(kind: IntKind, ty: &Ty) -> bool
    ensures { result ≡ spec.is_of_kind kind ty.now }
{
    match ty {
        Ty::Int(known) => same_kind(*known, kind),
        _ => false,
    }
}

fn is_void_pointer(ty: &Ty) -> bool
    ensures { result ≡ spec.is_void_pointer ty.now }
{
    matches!(ty, Ty::VoidPointer)
}

fn is_of(kind: Kind, number: u64, ty: &Ty) -> bool
    ensures { result ≡ spec.is_of kind number ty.now }
{
    match (kind, ty) {
        (Kind::Struct, Ty::Struct(known)) => u64::from(*known) == number,
        (Kind::Union, Ty::Union(known)) => u64::from(*known) == number,
        (Kind::FunctionPointer, Ty::Function(known)) => u64::from(*known) == number,
        (Kind::Pointer, Ty::Pointer(known)) => u64::from(*known) == number,
        _ => false,
    }
}

/// Where a table in its usual order has the type that comes after so many structs, unions and pointers to functions.
fn place_after(count: u64) -> usize {
    BASE_TYPES.saturating_add(WITH_POINTERS.saturating_mul(count as usize))
}

/// Where a table in its usual order has the type of the kind and number. Unions follow structs, the pointers to functions
/// follow unions, and a pointer type follows the type that it points to. It is a hint only: a search that begins there goes
/// through the whole table all the same.
fn usual_place(parts: &Parts, kind: Kind, number: u64) -> usize {
    let structs = parts.structs.as_slice().len() as u64;
    let unions = parts.unions.as_slice().len() as u64;
    match kind {
        Kind::Struct => place_after(number),
        Kind::Union => place_after(number.saturating_add(structs)),
        Kind::FunctionPointer => {
            place_after(number.saturating_add(structs).saturating_add(unions))
        }
        Kind::Pointer => (number as usize).saturating_add(1),
    }
}

/// The types before `start`, and those from there on. All stand before it where the table is shorter.
#[tactic(auto, using(crate::proofs::Around::around_facts))]
fn around(types: &[Ty], start: usize) -> (&[Ty], &[Ty])
    ensures { result.0.now ++ result.1.now ≡ types.now }
{
    types.split_at(start.min(types.len()))
}

fn has_kind(parts: &Parts, kind: IntKind) -> bool
    ensures { result ≡ spec.has_kind parts.now kind }
{
    parts.types.as_slice().iter().any(|ty| is_of_kind(kind, ty))
}

fn has_kinds(parts: &Parts) -> bool
    ensures { result ≡ spec.has_kinds parts.now }
{
    has_kind(parts, IntKind::Char)
        && has_kind(parts, IntKind::UChar)
        && has_kind(parts, IntKind::Short)
        && has_kind(parts, IntKind::UShort)
        && has_kind(parts, IntKind::Int)
        && has_kind(parts, IntKind::UInt)
        && has_kind(parts, IntKind::LongLong)
        && has_kind(parts, IntKind::ULongLong)
}

fn holds(types: &[Ty], kind: Kind, number: u64) -> bool
    ensures { result ≡ list_any (spec.is_of kind number) types.now }
{
    types.iter().any(|ty| is_of(kind, number, ty))
}

#[tactic(auto, using(crate::proofs::Around::around_facts))]
fn has(parts: &Parts, kind: Kind, number: u64) -> bool
    ensures { result ≡ spec.has parts.now kind number }
{
    let (before, behind) = around(parts.types.as_slice(), usual_place(parts, kind, number));
    holds(behind, kind, number) || holds(before, kind, number)
}

/// Whether the table has the type of the kind for the number of each entry.
fn has_each<T>(parts: &Parts, kind: Kind, entries: &[T]) -> bool
    ensures { result ≡ spec.all_from (spec.has parts.now kind) 0 entries.now }
{
    let mut rest = entries;
    let mut number = 0u64;
    while let [_, others @ ..] = rest {
        if !has(parts, kind, number) {
            return false;
        }
        rest = others;
        number += 1;
    }
    true
}

fn has_void_pointer(parts: &Parts) -> bool
    ensures { result ≡ spec.has_void_pointer parts.now }
{
    parts.types.as_slice().iter().any(|ty| is_void_pointer(ty))
}

fn find(parts: &Parts, number: u64) -> Option<Ty>
    ensures { result ≡ ty parts.now number }
{
    match parts.types.as_slice().get(number as usize) {
        None => None,
        Some(ty) => Some(*ty),
    }
}

fn has_pointer(parts: &Parts, number: u64) -> bool
    ensures { result ≡ spec.has_pointer parts.now number }
{
    !has_stars(parts, GREATEST_STARS, find(parts, number)) || has(parts, Kind::Pointer, number)
}

fn is_no_array_pointer(parts: &Parts, ty: &Ty) -> bool
    ensures { result ≡ spec.is_no_array_pointer parts.now ty.now }
{
    match ty {
        Ty::Pointer(to) => !is_array(parts.find_type(*to)),
        _ => true,
    }
}

fn has_pointers(parts: &Parts) -> bool
    ensures { result ≡ spec.all_from (spec.has_pointer parts.now) 0 parts.now.types }
{
    let mut rest = parts.types.as_slice();
    let mut number = 0u64;
    while let [_, others @ ..] = rest {
        if !has_pointer(parts, number) {
            return false;
        }
        rest = others;
        number += 1;
    }
    true
}

fn has_no_array_pointer(parts: &Parts) -> bool
    ensures { result ≡ list_all (spec.is_no_array_pointer parts.now) parts.now.types }
{
    parts
        .types
        .as_slice()
        .iter()
        .all(|ty| is_no_array_pointer(parts, ty))
}

/// Whether the table holds the types that each program has.
pub fn has_types(parts: &Parts) -> bool
    ensures { result ≡ spec.has_types parts.now }
{
    has_kinds(parts)
        && has_each(parts, Kind::Struct, parts.structs.as_slice())
        && has_each(parts, Kind::Union, parts.unions.as_slice())
        && has_each(parts, Kind::FunctionPointer, parts.signatures.as_slice())
        && has_void_pointer(parts)
        && has_pointers(parts)
        && has_no_array_pointer(parts)
}
