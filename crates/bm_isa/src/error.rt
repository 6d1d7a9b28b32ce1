// What encoding and decoding answer where there is no result.

use std::alloc::{AllocError, AllocFailed};
use std::error::Error;
use std::fmt;

/// Why bytes were not decoded.
#[derive(Clone, Copy, Debug, PartialEq, Eq)]
pub enum IsaError {
    /// The instruction that begins `at` bytes from the start is cut off, or its first byte is no instruction's number.
    Bad { at: usize },
    /// Memory ran out.
    Memory,
}

impl fmt::Display for IsaError {
    fn fmt<W: fmt::Write>(&self, f: &mut fmt::Formatter<W>) -> fmt::Result {
        match self {
            IsaError::Bad { at } => write!(f, "no whole instruction at byte {at}"),
            IsaError::Memory => write!(f, "out of memory"),
        }
    }
}

impl Error for IsaError {}

impl<T: Drop> From<AllocFailed<T>> for IsaError {
    ghost use Rattle.std.specs.Prelude.{◌≡◌};
    ghost use Rattle.bm_isa.specs.declared.error.IsaError.TheVariants.{Memory as OutOfMemory};

    ghost from_gives = { λ _ e. e ≡ OutOfMemory };

    fn from(_: AllocFailed<T>) -> Self {
        IsaError::Memory
    }
}
