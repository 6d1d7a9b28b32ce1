ghost use Rattle.std.specs.Prelude.{◌≡◌, List, ℕ, Option, IfSome};
ghost use Rattle.lu_spec.specs.Fault.{IsCaused};
ghost use Rattle.lu_base.specs.Output.{WriteAnswers};
ghost use Rattle.lu_base.specs.declared.sink.SinkFault.TheVariants as Fault;

use std::alloc::{AllocError, AllocFailed};

/// Why a piece wasn't written whole.
#[derive(Clone, Copy, Debug, PartialEq, Eq)]
pub enum SinkFault {
    /// The write failed; the front of the piece may have gone out.
    Failed,
    /// An allocation was refused; nothing was written.
    Memory,
}

impl From<AllocError> for SinkFault {
    ghost from_gives = { λ _ e. e ≡ Fault.Memory };

    fn from(_: AllocError) -> Self {
        SinkFault::Memory
    }
}

impl<T: Drop> From<AllocFailed<T>> for SinkFault {
    ghost from_gives = { λ _ e. e ≡ Fault.Memory };

    fn from(_: AllocFailed<T>) -> Self {
        SinkFault::Memory
    }
}

/// Where output goes.
pub trait Sink {
    /// What was written, where it tells that.
    ghost wrote: { Self → Option (List ℕ) };

    /// How often a write has failed. The count stands still at 2^64 - 1.
    ghost faults: { Self → ℕ };

    /// Appends the piece; at `Failed` a front of it, at `Memory` nothing.
    fn write(&mut self, piece: &[u8]) -> Result<(), SinkFault>
        ensures answer { IfSome (wrote self.old) (λ before. WriteAnswers before piece.now (wrote self.new) result) }
        ensures cause { IsCaused SinkFault.Failed (faults self.old) (faults self.new) result };
}
