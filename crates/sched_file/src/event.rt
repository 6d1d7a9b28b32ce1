use lu_base::Message;

/// A step of the system. Servers and updates are given by their places in the plan, from 0.
#[derive(Clone, Copy, Debug, PartialEq, Eq)]
pub enum Event {
    /// Each server runs its `init`.
    Boot,
    /// The client, 100..999, sends the message, whose source it is, to the server.
    Send {
        client: i32,
        server: usize,
        message: Message,
    },
    /// The server runs for so many ticks, 1..1,000,000.
    Run {
        server: usize,
        ticks: u32,
    },
    /// The update is requested.
    Update {
        update: u32,
    },
    /// The held update does so many units of work, 1..1,000,000, or fewer where it ends or is ready before.
    Work {
        update: u32,
        units: u32,
    },
    /// The update commits.
    Commit {
        update: u32,
    },
    /// The update is aborted.
    Abort {
        update: u32,
    },
    /// The server's live objects are written.
    Dump {
        server: usize,
    },
    /// The run ends.
    Finish,
}
