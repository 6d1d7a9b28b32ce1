use crate::Sequence;
use lu_base::Name;

/// What a plan says.
#[derive(Debug, Drop)]
pub struct Plan {
    /// The name of the schedule's file.
    pub schedule: Name,
    /// The servers, 1..16.
    pub server: Sequence<Server>,
    /// The updates, 0..64.
    pub update: Sequence<Update>,
}

/// A server of a plan.
#[derive(Debug, Drop)]
pub struct Server {
    /// No two servers have one name.
    pub name: Name,
    /// 1..16; no two servers have one number.
    pub number: u32,
    /// The name of the source's file.
    pub source: Name,
    /// The number of the program that the server begins with, 1..1,000,000.
    pub version: u32,
    /// The size of that program's pointers.
    pub pointers: Pointers,
}

/// An update of a plan.
#[derive(Debug, Drop)]
pub struct Update {
    /// No two updates have one name.
    pub name: Name,
    /// The server's place in the plan, from 0.
    pub server: usize,
    /// The version that is replaced: the server's own, or the `to` of an earlier update of it.
    pub from: u32,
    /// The version that the update brings, 1..1,000,000; no two programs of a server have one number.
    pub to: u32,
    /// The name of the source's file.
    pub source: Name,
    /// The size of the pointers of the program that the update brings.
    pub pointers: Pointers,
    /// The text of the filter, an expression of at most 4,096 bytes.
    pub filter: Name,
    /// The types of message that are held back while the update is active, at most 64.
    pub hold: Sequence<i32>,
    /// In how many deliveries the server may become quiet, 1..1,000.
    pub tries: u32,
    /// What becomes of a pointer to an object that is dead.
    pub dangling: Dangling,
    /// Whether the update waits for a commit once it is ready.
    pub gated: bool,
    /// The function that is called once the state has moved.
    pub after: Option<Name>,
    /// What has another name in the new program: in the order of the tables and, within one, of the old names' bytes.
    pub rename: Sequence<Rename>,
    /// The handlers, 0..16.
    pub handler: Sequence<Handler>,
}

/// The size of a program's pointers and function pointers.
#[derive(Clone, Copy, Debug, PartialEq, Eq)]
pub enum Pointers {
    /// 4 bytes.
    Narrow,
    /// 8 bytes.
    Wide,
}

/// What becomes of a pointer to an object that is dead.
#[derive(Clone, Copy, Debug, PartialEq, Eq)]
pub enum Dangling {
    /// The update is refused.
    Refuse,
    /// The pointer becomes a null pointer.
    Null,
}

/// A name of the old program and that of its pair in the new one.
#[derive(Debug, Drop)]
pub struct Rename {
    /// `global`, `struct`, `field`, `union`, `member`, `function` or `site`.
    pub table: Name,
    /// A name; `TAG.NAME` for a field or a member, and `FUNCTION#NUMBER` for a site.
    pub old: Name,
    /// A name; `FUNCTION#NUMBER` for a site.
    pub new: Name,
}

/// A function of the new program that fills in the values of a struct.
#[derive(Debug, Drop)]
pub struct Handler {
    /// The struct of the old program, whose key is `struct`.
    pub old: Name,
    /// The struct of the new program that has the old struct's fields.
    pub old_form: Name,
    /// The function of the new program.
    pub function: Name,
}
