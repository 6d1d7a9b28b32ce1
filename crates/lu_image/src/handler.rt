// Handlers of an update.

use c_types::{Path, Sequence, TyId};
use lu_base::Bytes8;

/// What an update does at each place of an old struct.
#[derive(Clone, Copy, Debug, PartialEq, Eq)]
pub struct Handler {
    /// The number of the struct in the old program.
    pub structure: u32,
    /// The number of the old form in the new program's structs.
    pub form: u32,
    /// The number of the function in the new program.
    pub function: u32,
}

/// A call of a handler.
#[derive(Debug, Drop)]
pub struct HandlerCall {
    /// The number of the function in the new program.
    pub function: u32,
    /// The type of the old form in the new program.
    pub form: TyId,
    /// The bytes of the old form's value.
    pub value: Bytes8,
    /// The address of the new place.
    pub place: u32,
    /// The number of the old object.
    pub object: u32,
    /// The old place in it.
    pub path: Path,
}

/// The calls of an update, in order.
#[derive(Debug, Drop)]
pub struct HandlerPlan {
    pub calls: Sequence<HandlerCall>,
    /// The number of the function that is called last.
    pub after: Option<u32>,
}
