use lu_lines::Reason;

/// How far an attempt of an update is. It is active while it is waiting, moving or ready.
#[derive(Debug, Drop)]
pub enum Outcome {
    /// It waits until its filter holds.
    Waiting,
    /// The server is held, and its state moves unit by unit.
    Moving,
    /// The new state is whole.
    Ready,
    /// The new version runs.
    Committed,
    /// It has ended without a commit.
    Refused(Reason),
}
