// Why bytes are no image.

use lu_base::Memory;
use std::alloc::{AllocError, AllocFailed};
use std::error::Error;
use std::fmt;

/// Why bytes were not read as an image.
#[derive(Clone, Copy, Debug, PartialEq, Eq)]
pub enum ImageError {
    /// The first bytes are other than `LUIM`.
    Magic,
    /// The version is none that is read.
    Version,
    /// The bytes end inside a part.
    Truncated,
    /// The item that begins `at` bytes from the start has a tag, number, name, count, size or code that it can't have, or
    /// the list of types that begins there is no table of types.
    Table { at: usize },
    /// Bytes follow the end.
    Extra,
    /// Memory ran out.
    Memory,
}

impl fmt::Display for ImageError {
    fn fmt<W: fmt::Write>(&self, f: &mut fmt::Formatter<W>) -> fmt::Result {
        match self {
            ImageError::Magic => write!(f, "no image"),
            ImageError::Version => write!(f, "an image of another version"),
            ImageError::Truncated => write!(f, "the image is cut off"),
            ImageError::Table { at } => write!(f, "a wrong item at byte {at}"),
            ImageError::Extra => write!(f, "bytes follow the image"),
            ImageError::Memory => write!(f, "out of memory"),
        }
    }
}

impl Error for ImageError {}

impl From<AllocError> for ImageError {
    ghost use Rattle.std.specs.Prelude.{◌≡◌};
    ghost use Rattle.cg_image_read.specs.declared.error.ImageError.TheVariants.{Memory as OutOfMemory};

    ghost from_gives = { λ _ e. e ≡ OutOfMemory };

    fn from(_: AllocError) -> Self {
        ImageError::Memory
    }
}

impl<T: Drop> From<AllocFailed<T>> for ImageError {
    ghost use Rattle.std.specs.Prelude.{◌≡◌};
    ghost use Rattle.cg_image_read.specs.declared.error.ImageError.TheVariants.{Memory as OutOfMemory};

    ghost from_gives = { λ _ e. e ≡ OutOfMemory };

    fn from(_: AllocFailed<T>) -> Self {
        ImageError::Memory
    }
}

impl From<Memory> for ImageError {
    ghost use Rattle.std.specs.Prelude.{◌≡◌};
    ghost use Rattle.cg_image_read.specs.declared.error.ImageError.TheVariants.{Memory as OutOfMemory};

    ghost from_gives = { λ _ e. e ≡ OutOfMemory };

    fn from(_: Memory) -> Self {
        ImageError::Memory
    }
}
