//! Words, the ground of every layer: text and bytes, lists, messages, traps, limits, and the traits for files and output.
//! A fault is answered only where the count of faults rose.
#![tactic(auto)]

mod bytes8;
mod calm_shelf;
mod file_shelf;
pub mod limits;
mod mem_shelf;
mod mem_sink;
mod memory;
mod message;
mod name;
mod out_sink;
mod sequence;
mod shelf;
mod sink;
mod status;
mod stored;
mod trap;
mod world;

pub use bytes8::Bytes8;
pub use calm_shelf::CalmShelf;
pub use file_shelf::FileShelf;
pub use mem_shelf::MemShelf;
pub use mem_sink::MemSink;
pub use memory::Memory;
pub use message::Message;
pub use name::Name;
pub use out_sink::OutSink;
pub use sequence::Sequence;
pub use shelf::{Shelf, ShelfFault};
pub use sink::{Sink, SinkFault};
pub use status::Status;
pub use trap::Trap;
pub use world::World;
