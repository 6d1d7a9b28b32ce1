use crate::{Key, LimitedList};
use lu_base::Memory;
use std::alloc::{AllocError, AllocFailed};
use std::error::Error;
use std::fmt;

/// Why a text is no plan.
#[derive(Clone, Copy, Debug, PartialEq, Eq)]
pub enum PlanError {
    /// It is no TOML document.
    NotToml,
    /// The first key, in the order of `Key`, that is missing, isn't known, or has a value of another form.
    Field { name: Key },
    /// The first list that is longer or shorter than it may be.
    Limit { name: LimitedList },
    /// An allocation was refused, which says nothing of the text.
    Memory,
}

impl From<AllocError> for PlanError {
    ghost use Rattle.std.specs.Prelude.{◌≡◌};
    ghost use Rattle.plan_file.specs.declared.error.PlanError.TheVariants as error;

    ghost from_gives = { λ _ e. e ≡ error.Memory };

    fn from(_: AllocError) -> Self {
        PlanError::Memory
    }
}

impl<T: Drop> From<AllocFailed<T>> for PlanError {
    ghost use Rattle.std.specs.Prelude.{◌≡◌};
    ghost use Rattle.plan_file.specs.declared.error.PlanError.TheVariants as error;

    ghost from_gives = { λ _ e. e ≡ error.Memory };

    fn from(_: AllocFailed<T>) -> Self {
        PlanError::Memory
    }
}

impl From<Memory> for PlanError {
    ghost use Rattle.std.specs.Prelude.{◌≡◌};
    ghost use Rattle.plan_file.specs.declared.error.PlanError.TheVariants as error;

    ghost from_gives = { λ _ e. e ≡ error.Memory };

    fn from(_: Memory) -> Self {
        PlanError::Memory
    }
}

impl fmt::Display for PlanError {
    fn fmt<W: fmt::Write>(&self, f: &mut fmt::Formatter<W>) -> fmt::Result {
        match self {
            PlanError::NotToml => write!(f, "toml"),
            PlanError::Field { name } => write!(f, "field {}", name.as_str()),
            PlanError::Limit { name } => write!(f, "limit {}", name.as_str()),
            PlanError::Memory => write!(f, "out of memory"),
        }
    }
}

impl Error for PlanError {}
