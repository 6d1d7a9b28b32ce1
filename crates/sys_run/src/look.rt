//! What is seen of a system at the end of a run.

ghost use Rattle.sys_run.specs.Runs.{SystemValue};

use crate::system::System;
use lu_base::Status;

/// Looks at a system once.
pub trait Look: Drop {
    /// What it sees.
    type Seen;

    /// What it may see of a system.
    ghost gives: { SystemValue → Self.Seen → Type 0 };

    fn look(self, system: &System<'_>) -> Self::Seen
        ensures { gives system.now result };
}

/// Sees nothing.
#[derive(Clone, Copy, Debug)]
pub struct Blind;

impl Look for Blind {
    type Seen = ();

    ghost gives = { λ _ _. Unit {0} };

    fn look(self, _system: &System<'_>) {}
}

/// How a run of the program ended, and what was seen of its system where it was done.
#[derive(Debug, Drop)]
pub struct Answer<T> {
    pub status: Status,
    pub seen: Option<T>,
}
