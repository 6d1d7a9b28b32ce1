//! Compiler, images read. Takes bytes, gives the program of the machine whose image they are, or why they are none. Its
//! one contract: unless memory ran out, `read_image` answers a program exactly for the bytes of its image, and else the
//! first refusal that reading from the front meets. `specs/HasImage` says which programs have an image, `specs/Reading`
//! what is tried in which order. What was read is code that the machine accepts.
#![tactic(auto)]

mod error;
mod fields;
mod items;
mod later;
mod names;
mod program;
mod reader;
mod tables;

pub use error::ImageError;
pub use reader::read_image;
