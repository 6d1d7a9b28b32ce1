use lu_base::{Name, Trap};

/// Why an update was refused. A path names a place of the old state, as `tab[3].next`; an object's name is that of a global,
/// or `f#k:o` for the o-th heap object, made at the k-th allocation in the text of f.
#[derive(Debug, Drop)]
pub enum Reason {
    /// The server is dead of this trap.
    Dead {
        trap: Trap,
    },
    /// Another update of the server is active.
    Busy,
    /// The server runs this version, and not the one that the update is for.
    Version {
        version: u64,
    },
    /// The filter trapped.
    FilterTrap {
        trap: Trap,
    },
    /// The filter was zero after so many deliveries.
    NotQuiet {
        deliveries: u64,
    },
    /// It was aborted after so many units of work.
    Aborted {
        units: u64,
    },
    /// A handler trapped; calls count from 1.
    HandlerTrap {
        call: u64,
        trap: Trap,
    },
    /// An allocation was refused in this unit of work; 0 is the request.
    NoMemory {
        unit: u64,
    },
    /// The types at the path don't correspond.
    Shape {
        path: Name,
    },
    /// A handled struct stands in an active member of a union.
    HandledInUnion {
        path: Name,
    },
    /// An element that isn't zero is cut off.
    ArrayCut {
        path: Name,
    },
    /// The heap would pass its bound at this object.
    HeapLimit {
        object: Name,
    },
    /// The new type doesn't hold the value.
    Narrow {
        path: Name,
        value: i128,
    },
    /// The active member has no pair.
    MemberGone {
        path: Name,
        member: Name,
    },
    /// The function has no pair of the pointer's type.
    LostFunction {
        path: Name,
        function: Name,
    },
    /// The target's site of allocation has no pair.
    UnpairedSite {
        path: Name,
        site: Name,
    },
    /// The target is dead.
    Dangling {
        path: Name,
        object: Name,
        offset: u32,
    },
    /// The target has no image.
    LostTarget {
        path: Name,
        object: Name,
        offset: u32,
    },
    /// No place of the pointer's type stands at the target.
    NoPlace {
        path: Name,
        object: Name,
        offset: u32,
    },
    /// Two places at the target have different images.
    Ambiguous {
        path: Name,
        object: Name,
        offset: u32,
    },
}
