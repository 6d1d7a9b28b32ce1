use crate::Sequence;

/// The numbers that `send` goes by.
#[derive(Debug, Drop)]
pub struct World {
    /// The server's own number.
    pub own: i32,
    /// The numbers of all servers.
    pub servers: Sequence<i32>,
}
