//! Compiler, images of compiled programs. Takes `Code`, gives the image of its machine's program. Its one contract: where
//! there is memory, `write_image` answers exactly that image.
#![tactic(auto)]

mod image;

pub use image::write_image;
