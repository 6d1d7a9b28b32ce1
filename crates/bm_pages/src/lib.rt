//! Machine, memory in pages: the same objects of bytes as in any memory, kept in pages of 4,096 bytes under a directory of
//! two levels. Callers see a map from addresses to bytes; each call of `Bytes` is one equation of it.
#![tactic(auto)]

mod directory;
mod extents;
mod page;
mod page_bytes;
mod range;

pub use bm_mem::Bytes;
pub use lu_base::Memory;
pub use page_bytes::PageBytes;
