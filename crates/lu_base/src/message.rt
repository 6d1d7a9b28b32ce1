/// A message between a client or server and a server.
#[derive(Clone, Copy, Debug, PartialEq, Eq)]
pub struct Message {
    /// The number of the sender: a client's (100..999) or a server's (1..16).
    pub source: i32,
    /// The message's type.
    pub kind: i32,
    pub arg: [i32; 6],
}
