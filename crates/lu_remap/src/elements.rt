// Elements in a row.

use c_types::TyId;

/// Elements of a type that stand one behind the other.
#[derive(Clone, Copy, Debug, PartialEq, Eq)]
pub struct Elements {
    pub ty: TyId,
    /// Where the first begins, in bytes.
    pub offset: u32,
    pub count: u32,
}
