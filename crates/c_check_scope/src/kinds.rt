// Kinds of types.

ghost use Rattle.std.specs.Prelude.{◌≡◌};
ghost use Rattle.c_check_scope.specs.Kinds.{kind_of, is_pointer, is_scalar, is_record, one_pointer, one_data_pointer, void_and_object, element_of, target_of, signature_of};

use c_types::{IntKind, Ty, TyId};

/// The kind of an integer type; none for another type.
#[tactic(auto, unfolding(crate::specs::Kinds::kind_of))]
pub fn kind_of(ty: Ty) -> Option<IntKind>
    ensures { result ≡ kind_of ty }
{
    match ty {
        Ty::Int(kind) => Some(kind),
        _ => None,
    }
}

/// Whether a type is a pointer to an object, `void *` or a function pointer.
#[tactic(auto, unfolding(crate::specs::Kinds::is_pointer))]
pub fn is_pointer(ty: Ty) -> bool
    ensures { result ≡ is_pointer ty }
{
    match ty {
        Ty::Pointer(_) | Ty::VoidPointer | Ty::Function(_) => true,
        _ => false,
    }
}

/// Whether a type is an integer or a pointer.
#[tactic(auto, unfolding(crate::specs::Kinds::is_scalar))]
pub fn is_scalar(ty: Ty) -> bool
    ensures { result ≡ is_scalar ty }
{
    match ty {
        Ty::Int(_) | Ty::Pointer(_) | Ty::VoidPointer | Ty::Function(_) => true,
        _ => false,
    }
}

/// Whether a type is a struct or a union.
#[tactic(auto, unfolding(crate::specs::Kinds::is_record))]
pub fn is_record(ty: Ty) -> bool
    ensures { result ≡ is_record ty }
{
    match ty {
        Ty::Struct(_) | Ty::Union(_) => true,
        _ => false,
    }
}

/// The pointer type that both are; none where they aren't one.
#[tactic(auto, unfolding(crate::specs::Kinds::one_pointer))]
pub fn one_pointer(a: Ty, b: Ty) -> Option<Ty>
    ensures { result ≡ one_pointer a b }
{
    match (a, b) {
        (Ty::Pointer(t), Ty::Pointer(u)) if t == u => Some(a),
        (Ty::VoidPointer, Ty::VoidPointer) => Some(a),
        (Ty::Function(f), Ty::Function(g)) if f == g => Some(a),
        _ => None,
    }
}

/// The same for pointers other than function pointers.
#[tactic(auto, unfolding(crate::specs::Kinds::one_data_pointer))]
pub fn one_data_pointer(a: Ty, b: Ty) -> Option<Ty>
    ensures { result ≡ one_data_pointer a b }
{
    match (a, b) {
        (Ty::Pointer(t), Ty::Pointer(u)) if t == u => Some(a),
        (Ty::VoidPointer, Ty::VoidPointer) => Some(a),
        _ => None,
    }
}

/// `void *` where one of the types is it and the other a pointer to an object; none elsewhere.
#[tactic(auto, unfolding(crate::specs::Kinds::void_and_object))]
pub fn void_and_object(a: Ty, b: Ty) -> Option<Ty>
    ensures { result ≡ void_and_object a b }
{
    match (a, b) {
        (Ty::Pointer(_), Ty::VoidPointer) | (Ty::VoidPointer, Ty::Pointer(_)) => {
            Some(Ty::VoidPointer)
        }
        _ => None,
    }
}

/// The number of the type of an array's elements; none for another type.
#[tactic(auto, unfolding(crate::specs::Kinds::element_of))]
pub fn element_of(ty: Ty) -> Option<TyId>
    ensures { result ≡ element_of ty }
{
    match ty {
        Ty::Array(element, _) => Some(element),
        _ => None,
    }
}

/// The number of the type to which a pointer to an object points; none for another type.
#[tactic(auto, unfolding(crate::specs::Kinds::target_of))]
pub fn target_of(ty: Ty) -> Option<TyId>
    ensures { result ≡ target_of ty }
{
    match ty {
        Ty::Pointer(target) => Some(target),
        _ => None,
    }
}

/// The number of the signature of a function pointer; none for another type.
#[tactic(auto, unfolding(crate::specs::Kinds::signature_of))]
pub fn signature_of(ty: Ty) -> Option<u32>
    ensures { result ≡ signature_of ty }
{
    match ty {
        Ty::Function(signature) => Some(signature),
        _ => None,
    }
}
