// Types as the rules of the language ask for them.

ghost use Rattle.std.specs.Prelude.{◌≡◌, ◌≤◌, ◌&&◌, nat_lt, Some, length, slice_get};
ghost use Rattle.std.specs.List.{list_all};
ghost use Rattle.c_types.specs.Numbering.{is_array};
ghost use Rattle.src_meaning.specs.ValidTypes as spec;

use c_types::{FieldDef, IntKind, Parts, Signature, Ty, TyId};

pub fn is_integer(ty: Option<Ty>) -> bool
    ensures { result ≡ spec.is_integer ty }
{
    matches!(ty, Some(Ty::Int(_)))
}

pub fn is_int(ty: Option<Ty>) -> bool
    ensures { result ≡ spec.is_int ty }
{
    matches!(ty, Some(Ty::Int(IntKind::Int)))
}

pub fn is_unsigned_int(ty: Option<Ty>) -> bool
    ensures { result ≡ spec.is_unsigned_int ty }
{
    matches!(ty, Some(Ty::Int(IntKind::UInt)))
}

pub fn is_long_long(ty: Option<Ty>) -> bool
    ensures { result ≡ spec.is_long_long ty }
{
    matches!(ty, Some(Ty::Int(IntKind::LongLong)))
}

fn is_wide(kind: IntKind) -> bool
    ensures { result ≡ spec.is_wide kind }
{
    matches!(
        kind,
        IntKind::Int | IntKind::UInt | IntKind::LongLong | IntKind::ULongLong
    )
}

pub fn is_promoted(ty: Option<Ty>) -> bool
    ensures { result ≡ spec.is_promoted ty }
{
    match ty {
        Some(Ty::Int(kind)) => is_wide(kind),
        _ => false,
    }
}

pub fn is_object_pointer(ty: Option<Ty>) -> bool
    ensures { result ≡ spec.is_object_pointer ty }
{
    matches!(ty, Some(Ty::Pointer(_)))
}

pub fn is_void_pointer(ty: Option<Ty>) -> bool
    ensures { result ≡ spec.is_void_pointer ty }
{
    matches!(ty, Some(Ty::VoidPointer))
}

fn is_function_pointer(ty: Option<Ty>) -> bool
    ensures { result ≡ spec.is_function_pointer ty }
{
    matches!(ty, Some(Ty::Function(_)))
}

pub fn is_array(ty: Option<Ty>) -> bool
    ensures { result ≡ is_array ty }
{
    matches!(ty, Some(Ty::Array(_, _)))
}

/// Whether `<` compares values of the type.
pub fn is_ordered(ty: Option<Ty>) -> bool
    ensures { result ≡ spec.is_ordered ty }
{
    is_promoted(ty) || is_object_pointer(ty) || is_void_pointer(ty)
}

/// Whether `==` compares values of the type.
pub fn is_comparable(ty: Option<Ty>) -> bool
    ensures { result ≡ spec.is_comparable ty }
{
    is_ordered(ty) || is_function_pointer(ty)
}

pub fn is_scalar(ty: Option<Ty>) -> bool
    ensures { result ≡ spec.is_scalar ty }
{
    is_integer(ty) || is_comparable(ty)
}

pub fn points_to(ty: Option<Ty>, to: TyId) -> bool
    ensures { result ≡ spec.points_to ty to }
{
    match ty {
        Some(Ty::Pointer(target)) => target == to,
        _ => false,
    }
}

pub fn is_array_of(ty: Option<Ty>, element: TyId) -> bool
    ensures { result ≡ spec.is_array_of ty element }
{
    match ty {
        Some(Ty::Array(of, _)) => of == element,
        _ => false,
    }
}

/// Whether an array of the type `from` decays to the type `to`.
pub fn is_decayed(from: Option<Ty>, to: Option<Ty>) -> bool
    ensures { result ≡ spec.is_decayed from to }
{
    match from {
        Some(Ty::Array(element, _)) => points_to(to, element),
        _ => false,
    }
}

fn is_field(fields: &[FieldDef], number: u32, ty: TyId) -> bool
    ensures { result ≡ spec.is_field fields.now number ty }
{
    match fields.get(number as usize) {
        None => false,
        Some(field) => field.ty == ty,
    }
}

pub fn is_field_of(parts: &Parts, whole: Option<Ty>, number: u32, ty: TyId) -> bool
    ensures { result ≡ spec.is_field_of parts.now whole number ty }
{
    match whole {
        Some(Ty::Struct(tag)) => is_field(parts.fields_of(tag), number, ty),
        _ => false,
    }
}

pub fn is_member_of(parts: &Parts, whole: Option<Ty>, number: u32, ty: TyId) -> bool
    ensures { result ≡ spec.is_member_of parts.now whole number ty }
{
    match whole {
        Some(Ty::Union(tag)) => is_field(parts.members_of(tag), number, ty),
        _ => false,
    }
}

/// Whether a value of the type `from` converts to the type `to` without a cast.
pub fn converts(from: Option<Ty>, to: Option<Ty>) -> bool
    ensures { result ≡ spec.converts from to }
{
    match (from, to) {
        (Some(Ty::Int(_)), Some(Ty::Int(_))) => true,
        (Some(Ty::Pointer(a)), Some(Ty::Pointer(b))) => a == b,
        (Some(Ty::Pointer(_)), Some(Ty::VoidPointer)) => true,
        (Some(Ty::VoidPointer), Some(Ty::Pointer(_))) => true,
        (Some(Ty::VoidPointer), Some(Ty::VoidPointer)) => true,
        (Some(Ty::Function(a)), Some(Ty::Function(b))) => a == b,
        _ => false,
    }
}

/// Whether a cast may convert a value of the type `from` to the type `to`.
pub fn casts(from: Option<Ty>, to: Option<Ty>) -> bool
    ensures { result ≡ spec.casts from to }
{
    match (from, to) {
        (Some(Ty::Int(_)), Some(Ty::Int(_))) => true,
        (Some(Ty::Pointer(_)), Some(Ty::VoidPointer)) => true,
        (Some(Ty::VoidPointer), Some(Ty::Pointer(_))) => true,
        _ => false,
    }
}

pub fn is_pointer(ty: Option<Ty>) -> bool
    ensures { result ≡ spec.is_pointer ty }
{
    matches!(
        ty,
        Some(Ty::Pointer(_)) | Some(Ty::VoidPointer) | Some(Ty::Function(_))
    )
}

/// Whether the type has at most so many stars over an integer, a struct or a union, or over void.
pub fn is_starred(parts: &Parts, stars: u32, ty: Option<Ty>) -> bool
    ensures { result ≡ spec.is_starred parts.now stars ty }
{
    match ty {
        Some(Ty::Int(_)) | Some(Ty::Struct(_)) | Some(Ty::Union(_)) => true,
        Some(Ty::VoidPointer) => 0 < stars,
        Some(Ty::Pointer(to)) => 0 < stars && is_starred(parts, stars - 1, parts.find_type(to)),
        _ => false,
    }
}

/// Whether the type has at most so many stars over a function pointer.
fn is_function_starred(parts: &Parts, stars: u32, ty: Option<Ty>) -> bool
    ensures { result ≡ spec.is_function_starred parts.now stars ty }
{
    match ty {
        Some(Ty::Function(_)) => true,
        Some(Ty::Pointer(to)) => {
            0 < stars && is_function_starred(parts, stars - 1, parts.find_type(to))
        }
        _ => false,
    }
}

pub fn has_stars(parts: &Parts, stars: u32, ty: Option<Ty>) -> bool
    ensures { result ≡ spec.has_stars parts.now stars ty }
{
    is_starred(parts, stars, ty) || is_function_starred(parts, stars, ty)
}

/// The stars that a text may write.
const GREATEST_STARS: u32 = 8;

/// Whether words and stars alone name the type.
pub fn is_named(parts: &Parts, number: TyId) -> bool
    ensures { result ≡ spec.is_named parts.now number }
{
    is_starred(parts, GREATEST_STARS, parts.find_type(number))
}

pub fn is_result(parts: &Parts, answer: Option<TyId>) -> bool
    ensures { result ≡ spec.is_result parts.now answer }
{
    match answer {
        None => true,
        Some(ty) => is_named(parts, ty) && is_scalar(parts.find_type(ty)),
    }
}

/// The parameters that a function may have.
pub const GREATEST_PARAMS: usize = 64;

/// Whether a text with this room may declare a function pointer of the signature, where room is 65 less the constructs
/// that are open.
#[cycle(is_declared)]
pub fn is_signature_declared(parts: &Parts, room: u32, signature: &Signature) -> bool
    ensures { result ≡ spec.signature_is_declared (spec.is_declared_scalar parts.now room) parts.now (Some signature.now) }
{
    is_result(parts, signature.result)
        && signature.params.as_slice().len() <= GREATEST_PARAMS
        && are_declared_scalars(parts, room, signature.params.as_slice())
}

/// Whether a text with this room may declare parameters or locals of these types.
#[cycle(is_declared)]
pub fn are_declared_scalars(parts: &Parts, room: u32, types: &[TyId]) -> bool
    requires { length types.now ≤ 64 }
    ensures { result ≡ list_all (spec.is_declared_scalar parts.now room) types.now }
{
    match types.split_first() {
        None => true,
        Some((ty, types)) => {
            is_declared_scalar(parts, room, *ty) && are_declared_scalars(parts, room, types)
        }
    }
}

/// Whether a text with this room may declare a parameter or a local of the type.
#[cycle(is_declared)]
pub fn is_declared_scalar(parts: &Parts, room: u32, number: TyId) -> bool
    ensures { result ≡ spec.is_declared_scalar parts.now room number }
{
    is_scalar(parts.find_type(number)) && is_declared(parts, room, parts.find_type(number))
}

#[cycle(is_declared)]
fn is_numbered_signature_declared(parts: &Parts, room: u32, number: u32) -> bool
    ensures { result ≡ spec.signature_is_declared (spec.is_declared_scalar parts.now room) parts.now (slice_get parts.now.signatures number) }
{
    match parts.signatures.as_slice().get(number as usize) {
        None => false,
        Some(signature) => is_signature_declared(parts, room, signature),
    }
}

/// Whether a text with this room after `(` of the parameters may declare a pointer to a function of the signature.
#[cycle(is_declared)]
fn is_pointer_declared(parts: &Parts, room: u32, number: u32) -> bool
    ensures { result ≡ nat_lt 0 room && spec.signature_is_declared (spec.is_declared_scalar parts.now room) parts.now (slice_get parts.now.signatures number) }
{
    0 < room && is_numbered_signature_declared(parts, room, number)
}

#[cycle(is_declared)]
fn is_declared(parts: &Parts, room: u32, ty: Option<Ty>) -> bool
    ensures { result ≡ spec.is_declared parts.now room ty }
{
    if room == 0 {
        return false;
    }
    match ty {
        Some(Ty::Function(number)) => is_pointer_declared(parts, room - 1, number),
        _ => is_starred(parts, GREATEST_STARS, ty),
    }
}

/// Whether a text with this room may declare a global, a field or a member of the type.
pub fn is_declared_object(parts: &Parts, room: u32, number: TyId) -> bool
    ensures { result ≡ spec.is_declared_object parts.now room number }
{
    let ty = parts.find_type(number);
    match ty {
        Some(Ty::Array(element, _)) => is_declared(parts, room, parts.find_type(element)),
        _ => is_declared(parts, room, ty),
    }
}
