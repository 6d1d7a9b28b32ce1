// Why an update is refused while its objects move.

use c_types::Path;

/// Why a value or a pointer has no image.
#[derive(Clone, Copy, Debug, PartialEq, Eq)]
pub enum Why {
    /// The types don't correspond.
    Shape,
    /// A handled struct stands in an active union member.
    HandledInUnion,
    /// An element that the shorter new array hasn't isn't zero.
    ArrayCut,
    /// The new heap objects take more than the heap has.
    HeapLimit,
    /// The new integer type doesn't hold the value.
    Narrow,
    /// The active member of a union has no pair.
    MemberGone,
    /// A function has no pair of the new pointer's type.
    LostFunction,
    /// The site of an object has no pair.
    UnpairedSite,
    /// A pointer's target is dead.
    Dangling,
    /// A pointer's target has no image.
    LostTarget,
    /// A pointer's target has no place of the pointer's type there.
    NoPlace,
    /// A pointer may go to more than one place, or its target has images and has none.
    Ambiguous,
}

/// What a refusal shows of the value that could not move.
#[derive(Clone, Copy, Debug, PartialEq, Eq)]
pub enum Kept {
    Nothing,
    /// An integer.
    Int(i128),
    /// A pointer's target: an old object and an offset in it in bytes.
    Target { object: u32, offset: u32 },
    /// The number of a function in the old program.
    Function(u32),
    /// The number of a member in the old union.
    Member(u32),
    /// The number of a site in the old program.
    Site(u32),
}

/// The first refusal of a store.
#[derive(Debug, Drop)]
pub struct Refusal {
    pub why: Why,
    /// The number of the old object.
    pub object: u32,
    /// The old place in it.
    pub path: Path,
    pub kept: Kept,
}
