// The type in which two operands meet.

ghost use Rattle.std.specs.Prelude.{◌≡◌};
ghost use Rattle.c_check_scope.specs.Operands.{common_of, common_type, promoted_type, with_null, joined, compared, ordered};

use crate::integers::{common, promoted};
use crate::kinds::{is_pointer, kind_of, one_data_pointer, one_pointer, void_and_object};
use c_types::{IntKind, Ty};

/// What a rule on operands asks of one.
#[derive(Clone, Copy, Debug, PartialEq, Eq)]
pub struct Operand {
    pub ty: Ty,
    /// Whether it is the literal 0, a number of value 0 and type int.
    pub is_null: bool,
}

#[tactic(auto, unfolding(crate::specs::Operands::common_of))]
fn common_of(a: Ty, b: Ty) -> Option<IntKind>
    ensures { result ≡ common_of a b }
{
    match kind_of(a) {
        None => None,
        Some(i) => match kind_of(b) {
            None => None,
            Some(j) => Some(common(i, j)),
        },
    }
}

/// The type in which an operator works on two integers; none where one is no integer.
#[tactic(auto, unfolding(crate::specs::Operands::common_type))]
pub fn common_type(a: Ty, b: Ty) -> Option<Ty>
    ensures { result ≡ common_type a b }
{
    match common_of(a, b) {
        None => None,
        Some(kind) => Some(Ty::Int(kind)),
    }
}

/// The promoted type of an integer; none for another type.
#[tactic(auto, unfolding(crate::specs::Operands::promoted_type))]
pub fn promoted_type(a: Ty) -> Option<Ty>
    ensures { result ≡ promoted_type a }
{
    match kind_of(a) {
        None => None,
        Some(kind) => Some(Ty::Int(promoted(kind))),
    }
}

#[tactic(auto, unfolding(crate::specs::Operands::with_null))]
fn with_null(pointer: Operand, zero: Operand) -> Option<Ty>
    ensures { result ≡ with_null pointer zero }
{
    if is_pointer(pointer.ty) && zero.is_null {
        Some(pointer.ty)
    } else {
        None
    }
}

/// The type of `?:` with these branches: of two integers the common type, of two pointers of one type that type,
/// and of a pointer and the literal 0 the pointer's; none elsewhere.
#[tactic(auto, unfolding(crate::specs::Operands::joined))]
pub fn joined(a: Operand, b: Operand) -> Option<Ty>
    ensures { result ≡ joined a b }
{
    if let Some(ty) = common_type(a.ty, b.ty) {
        return Some(ty);
    }
    if let Some(ty) = one_pointer(a.ty, b.ty) {
        return Some(ty);
    }
    match with_null(a, b) {
        Some(ty) => Some(ty),
        None => with_null(b, a),
    }
}

/// The type in which `==` and `!=` compare: that of `joined`, or `void *` for one beside a pointer to an object.
#[tactic(auto, unfolding(crate::specs::Operands::compared))]
pub fn compared(a: Operand, b: Operand) -> Option<Ty>
    ensures { result ≡ compared a b }
{
    match joined(a, b) {
        Some(ty) => Some(ty),
        None => void_and_object(a.ty, b.ty),
    }
}

/// The type in which `< <= > >=` compare: of two integers the common type, and of two pointers of one type, other
/// than function pointers, that type; none elsewhere.
#[tactic(auto, unfolding(crate::specs::Operands::ordered))]
pub fn ordered(a: Ty, b: Ty) -> Option<Ty>
    ensures { result ≡ ordered a b }
{
    match common_type(a, b) {
        Some(ty) => Some(ty),
        None => one_data_pointer(a, b),
    }
}
