//! The pointers in the bytes of an object that an update carries: layer of the update, over its definitions. It takes bytes
//! and the two types of the values in them, and gives the words of the carried pointers, in order: by the definitions, those
//! at places that have an image, an active member of a union counting by its pair, and in a handled struct those of the
//! fields that its old form has. Its one contract is the law of `laws`: in a process that stands for a store these words go
//! to the objects to which the carried pointers of the values go.
#![tactic(auto)]

pub mod laws;
mod types;
mod values;
mod versions;
mod words;

pub use lu_base::Memory;
pub use values::{Part, scan, scan_items};
pub use versions::PairedPrograms;
pub use words::word_at;
