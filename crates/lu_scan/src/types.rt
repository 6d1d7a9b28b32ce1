// Types by their kinds.

ghost use Rattle.std.specs.Prelude.{◌≡◌};
ghost use Rattle.lu_scan.specs.Scan.{struct_in, union_in, array_in};

use c_types::{Ty, TyId};

/// An array type: its elements' type, and how many it has.
#[derive(Clone, Copy)]
pub(crate) struct ArrayType {
    pub elem: TyId,
    pub count: u32,
}

/// The number of a struct type's struct.
pub(crate) fn struct_in(ty: Option<Ty>) -> Option<u32>
    ensures { result ≡ struct_in ty }
{
    match ty {
        Some(Ty::Struct(number)) => Some(number),
        _ => None,
    }
}

/// The number of a union type's union.
pub(crate) fn union_in(ty: Option<Ty>) -> Option<u32>
    ensures { result ≡ union_in ty }
{
    match ty {
        Some(Ty::Union(number)) => Some(number),
        _ => None,
    }
}

/// What an array type is of.
pub(crate) fn array_in(ty: Option<Ty>) -> Option<ArrayType>
    ensures { result ≡ array_in ty }
{
    match ty {
        Some(Ty::Array(elem, count)) => Some(ArrayType { elem, count }),
        _ => None,
    }
}
