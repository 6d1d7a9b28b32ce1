// What is known of one object.

/// An object: where it stands, what it holds, and whether it is live.
#[derive(Clone, Copy, Debug, PartialEq, Eq)]
pub struct Row {
    /// The address of its first byte.
    pub addr: u32,
    /// The number of the type of its elements.
    pub elem: u32,
    /// How many elements it has.
    pub count: u32,
    /// How many bytes it has.
    pub size: u32,
    /// The number of the allocation that made it; none for a global.
    pub site: Option<u32>,
    /// Whether it has not been freed.
    pub live: bool,
}
