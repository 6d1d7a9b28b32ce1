// What belongs together in two programs.

use crate::handler::Handler;
use c_types::{Sequence, Signature, TyId, TypeTable};

/// What becomes of a pointer to an object that is dead.
#[derive(Clone, Copy, Debug, PartialEq, Eq)]
pub enum Dangling {
    /// The update is refused.
    Refuse,
    /// The pointer becomes a null pointer.
    Null,
}

/// What an update needs of a program.
#[derive(Debug, Drop)]
pub struct Outline {
    pub types: TypeTable,
    /// The types of the globals.
    pub globals: Sequence<TyId>,
    /// The types of the functions.
    pub functions: Sequence<Signature>,
    /// The types of the elements that the sites allocate.
    pub sites: Sequence<TyId>,
}

/// Which entries of two programs belong together. Each list has, for each entry of the old program in order, the number
/// of its pair in the new program, if it has one.
#[derive(Debug, Drop)]
pub struct Pairing {
    pub globals: Sequence<Option<u32>>,
    pub structs: Sequence<Option<u32>>,
    /// For each old struct its fields, each with its number in the struct's pair.
    pub fields: Sequence<Sequence<Option<u32>>>,
    pub unions: Sequence<Option<u32>>,
    /// For each old union its members, each with its number in the union's pair.
    pub members: Sequence<Sequence<Option<u32>>>,
    pub functions: Sequence<Option<u32>>,
    pub sites: Sequence<Option<u32>>,
    pub old: Outline,
    pub new: Outline,
    pub dangling: Dangling,
    pub handlers: Sequence<Handler>,
    /// The number of the function in the new program that is called last.
    pub after: Option<u32>,
}
