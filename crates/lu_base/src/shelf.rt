ghost use Rattle.std.specs.Prelude.{◌≡◌, List, ℕ, Option, IfSome};
ghost use Rattle.lu_spec.specs.Fault.{IsCaused};
ghost use Rattle.lu_base.specs.Files.{Files, ReadAnswers};
ghost use Rattle.lu_base.specs.declared.shelf.ShelfFault.TheVariants as Fault;

use crate::{Bytes8, Memory};
use std::alloc::{AllocError, AllocFailed, Global};

/// Why a file wasn't read.
#[derive(Clone, Copy, Debug, PartialEq, Eq)]
pub enum ShelfFault {
    /// The read failed.
    Failed,
    /// There is no such file.
    Absent,
    /// The file has more bytes than were asked for.
    TooLarge,
    /// An allocation was refused.
    Memory,
}

impl From<Memory> for ShelfFault {
    ghost from_gives = { λ _ e. e ≡ Fault.Memory };

    fn from(_: Memory) -> Self {
        ShelfFault::Memory
    }
}

impl From<AllocError> for ShelfFault {
    ghost from_gives = { λ _ e. e ≡ Fault.Memory };

    fn from(_: AllocError) -> Self {
        ShelfFault::Memory
    }
}

impl<T: Drop> From<AllocFailed<T>> for ShelfFault {
    ghost from_gives = { λ _ e. e ≡ Fault.Memory };

    fn from(_: AllocFailed<T>) -> Self {
        ShelfFault::Memory
    }
}

/// Files that can be read by name.
pub trait Shelf {
    /// What it holds: the bytes of each file by its name, where it tells that.
    ghost holds: { Self → Option Files };

    /// How often a read has failed. The count stands still at 2^64 - 1.
    ghost faults: { Self → ℕ };

    /// The bytes of a file of at most `max` bytes. `Failed` may stand in place of any other answer.
    fn read(&mut self, alloc: Global, name: &str, max: u64) -> Result<Bytes8, ShelfFault>
        ensures kept { holds self.new ≡ holds self.old }
        ensures answer { IfSome (holds self.old) (λ files. ReadAnswers (files name.now) max result) }
        ensures cause { IsCaused ShelfFault.Failed (faults self.old) (faults self.new) result };
}
