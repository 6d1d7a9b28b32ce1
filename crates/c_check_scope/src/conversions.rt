// Which types convert.

ghost use Rattle.std.specs.Prelude.{◌≡◌};
ghost use Rattle.c_check_scope.specs.Conversions.{are_integers, one_record, casts, converts};

use crate::kinds::{is_pointer, one_pointer, void_and_object};
use crate::operand::Operand;
use c_types::Ty;

#[tactic(auto, unfolding(crate::specs::Conversions::are_integers))]
fn are_integers(a: Ty, b: Ty) -> bool
    ensures { result ≡ are_integers a b }
{
    match (a, b) {
        (Ty::Int(_), Ty::Int(_)) => true,
        _ => false,
    }
}

#[tactic(auto, unfolding(crate::specs::Conversions::one_record))]
fn one_record(a: Ty, b: Ty) -> bool
    ensures { result ≡ one_record a b }
{
    match (a, b) {
        (Ty::Struct(s), Ty::Struct(r)) => s == r,
        (Ty::Union(u), Ty::Union(v)) => u == v,
        _ => false,
    }
}

/// Whether a cast may be written: among integer types, and between `void *` and pointers to objects.
#[tactic(auto, unfolding(crate::specs::Conversions::casts))]
pub fn casts(from: Ty, to: Ty) -> bool
    ensures { result ≡ casts from to }
{
    are_integers(from, to) || void_and_object(from, to).is_some()
}

/// Whether a right side, argument or return value converts to a type: as a cast may, a type to itself, and the
/// literal 0 to any pointer. An array converts to nothing, not even to itself.
#[tactic(auto, unfolding(crate::specs::Conversions::converts))]
pub fn converts(from: Operand, to: Ty) -> bool
    ensures { result ≡ converts from to }
{
    casts(from.ty, to)
        || one_pointer(from.ty, to).is_some()
        || one_record(from.ty, to)
        || from.is_null && is_pointer(to)
}
