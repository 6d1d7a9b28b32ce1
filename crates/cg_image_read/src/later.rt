// The lists that types name entries of before they are read.

ghost use Rattle.std.specs.Prelude.{◌≡◌};
ghost use Rattle.cg_image_read.specs.Types.{knows};

use c_types::Ty;

/// A list that types name entries of before it is read.
#[derive(Clone, Copy, Debug, PartialEq, Eq)]
pub enum Later {
    Structs,
    Unions,
    Signatures,
}

/// Whether a type's number in that list, if it has one, is below `count`.
pub(crate) fn knows(list: Later, count: u32, ty: Ty) -> bool
    ensures { result ≡ knows list count ty }
{
    match (list, ty) {
        (Later::Structs, Ty::Struct(number)) => number < count,
        (Later::Unions, Ty::Union(number)) => number < count,
        (Later::Signatures, Ty::Function(number)) => number < count,
        _ => true,
    }
}
