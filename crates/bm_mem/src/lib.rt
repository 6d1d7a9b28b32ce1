//! Machine, memory: objects of bytes, each at the address of its first byte. Callers see a map from addresses to bytes
//! (`specs/Content`); each call of `Bytes` is one equation of it.
#![tactic(auto)]

mod bytes;
mod vec_bytes;

pub use bytes::Bytes;
pub use lu_base::Memory;
pub use vec_bytes::VecBytes;
