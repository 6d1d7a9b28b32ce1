ghost use Rattle.std.specs.Prelude.{◌≡◌};
ghost use Rattle.lu_image.specs.declared.error.PairError.TheVariants as PairError;

use crate::rename::Table;
use lu_base::{Memory, Name};
use std::alloc::{AllocError, AllocFailed};

/// Why two programs aren't paired.
#[derive(Debug, Drop)]
pub enum PairError {
    /// An old name that the old program doesn't have or that can't be renamed, or a new name that the new program
    /// doesn't have or that a rename can't give.
    NoSuch { table: Table, name: Name },
    /// A new name that an earlier rename gives.
    Twice { table: Table, name: Name },
    /// An allocation was refused.
    Memory,
}

impl From<Memory> for PairError {
    ghost from_gives = { λ _ e. e ≡ PairError.Memory };

    fn from(_: Memory) -> Self {
        PairError::Memory
    }
}

impl From<AllocError> for PairError {
    ghost from_gives = { λ _ e. e ≡ PairError.Memory };

    fn from(_: AllocError) -> Self {
        PairError::Memory
    }
}

impl<T: Drop> From<AllocFailed<T>> for PairError {
    ghost from_gives = { λ _ e. e ≡ PairError.Memory };

    fn from(_: AllocFailed<T>) -> Self {
        PairError::Memory
    }
}
