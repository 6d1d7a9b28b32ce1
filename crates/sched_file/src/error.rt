use lu_base::Memory;
use std::alloc::{AllocError, AllocFailed};
use std::error::Error;
use std::fmt;

/// Why a text is no schedule of a plan.
#[derive(Clone, Copy, Debug, PartialEq, Eq)]
pub enum SchedError {
    /// Line `n`, from 1, is the first that is no event, or names a server or an update that the plan hasn't.
    Line { n: usize },
    /// The events pass 100,000 before such a line.
    Limit,
    /// An allocation was refused, which says nothing of the text.
    Memory,
}

impl From<AllocError> for SchedError {
    ghost use Rattle.std.specs.Prelude.{◌≡◌};
    ghost use Rattle.sched_file.specs.declared.error.SchedError.TheVariants as error;

    ghost from_gives = { λ _ e. e ≡ error.Memory };

    fn from(_: AllocError) -> Self {
        SchedError::Memory
    }
}

impl<T: Drop> From<AllocFailed<T>> for SchedError {
    ghost use Rattle.std.specs.Prelude.{◌≡◌};
    ghost use Rattle.sched_file.specs.declared.error.SchedError.TheVariants as error;

    ghost from_gives = { λ _ e. e ≡ error.Memory };

    fn from(_: AllocFailed<T>) -> Self {
        SchedError::Memory
    }
}

impl From<Memory> for SchedError {
    ghost use Rattle.std.specs.Prelude.{◌≡◌};
    ghost use Rattle.sched_file.specs.declared.error.SchedError.TheVariants as error;

    ghost from_gives = { λ _ e. e ≡ error.Memory };

    fn from(_: Memory) -> Self {
        SchedError::Memory
    }
}

impl fmt::Display for SchedError {
    fn fmt<W: fmt::Write>(&self, f: &mut fmt::Formatter<W>) -> fmt::Result {
        match self {
            SchedError::Line { n } => write!(f, "line {n}"),
            SchedError::Limit => write!(f, "limit"),
            SchedError::Memory => write!(f, "out of memory"),
        }
    }
}

impl Error for SchedError {}
