//! Compiler, images. Takes a program of the machine, gives its image as bytes. Its one contract: where there is memory,
//! `write_image` answers exactly the image of `specs/Image`.
#![tactic(auto)]

mod items;
mod spelled;
mod writer;

pub use lu_base::Memory;
pub use writer::{MAGIC, write_image};
