use lu_base::Message;

/// What the history of a server keeps.
#[derive(Clone, Copy, Debug, PartialEq, Eq)]
pub enum Happened {
    /// The delivery of the message ended, by return or by a trap.
    Delivered(Message),
    /// The update of this number committed.
    Committed(u32),
}
