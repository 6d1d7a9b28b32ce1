use crate::Reason;
use lu_base::{Bytes8, Name, Trap};

/// One line of the transcript, with the values that it shows.
#[derive(Debug, Drop)]
pub enum Note {
    /// The server's `init` returned.
    Boot {
        server: Name,
    },
    /// A message from the server to a client.
    Reply {
        server: Name,
        client: i32,
        kind: i32,
        arg: [i32; 6],
    },
    /// The server died.
    Trap {
        server: Name,
        trap: Trap,
    },
    /// The update was requested, and waits until its server is quiet.
    Waiting {
        update: Name,
    },
    /// The server is held for the update.
    Held {
        update: Name,
    },
    /// So many objects are needed.
    Walked {
        update: Name,
        objects: u64,
    },
    /// So many objects are moved.
    Moved {
        update: Name,
        objects: u64,
    },
    /// So many handlers were called, `after` among them.
    Handled {
        update: Name,
        calls: u64,
    },
    /// The update may be committed.
    Ready {
        update: Name,
    },
    /// The new version runs.
    Committed {
        update: Name,
    },
    /// The update has ended without a commit, or its request was refused.
    Refused {
        update: Name,
        reason: Reason,
    },
    /// A commit was asked for while the update wasn't ready.
    NotReady {
        update: Name,
    },
    /// Work or an abort was asked for while the update wasn't active.
    NotActive {
        update: Name,
    },
    /// So many objects of the server are live; a line for each follows.
    Dump {
        server: Name,
        objects: u64,
    },
    /// A live object: its address, its name, its size in bytes, and its bytes.
    Object {
        address: u32,
        name: Name,
        size: u32,
        bytes: Bytes8,
    },
    /// No dump: a delivery isn't finished.
    DumpBusy {
        server: Name,
    },
    /// No dump: the server is dead.
    DumpDead {
        server: Name,
    },
    /// The update still waits at the end of the run.
    WaitingAtEnd {
        update: Name,
    },
    /// The update's state isn't moved whole at the end of the run.
    MovingAtEnd {
        update: Name,
    },
    /// The update is ready, and not committed, at the end of the run.
    ReadyAtEnd {
        update: Name,
    },
    /// The run has ended.
    End,
}
