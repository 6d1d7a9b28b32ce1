//! Types of C that name each other by number: their sizes, alignments and offsets in bytes, and the
//! places of an object. A table is built of `Parts` that are `well_numbered`; `specs/` has the
//! definitions that its contracts cite, and `proofs/` laws about them.
#![tactic(auto)]

mod cycles;
mod descent;
mod duplicates;
mod errors;
mod numbering;
mod parts;
mod path;
mod places;
mod rounds;
mod shape;
mod table;

pub use errors::BuildError;
pub use lu_base::{Memory, Sequence};
pub use numbering::well_numbered;
pub use parts::{FieldDef, IntKind, Parts, Signature, TagDef, Ty, TyId};
pub use path::{Path, Place, Step};
pub use shape::{GREATEST, Shape};
pub use table::TypeTable;
