// How runs end.

use lu_base::Trap;

/// Why a run stops.
#[derive(Clone, Copy, Debug, PartialEq, Eq)]
pub enum Stop {
    /// The call returned this word, or 0 where it has no result.
    Returned(u64),
    Trapped(Trap),
    /// The ticks that were given are spent, and another is needed.
    Paused,
    /// An allocation was refused. It is tried again by the next run.
    Memory,
}
