// Laws of stores and of zero values, each the contract of a function.

ghost use Rattle.src_laws.specs.Laws.{AssignmentsKeep, FreesKeep, AllocationsKeep, ZerosAreZero};

/// A store stays a store of its program under assignments, frees and allocations.
pub fn stores()
    ensures assignments { AssignmentsKeep }
    ensures frees { FreesKeep }
    ensures allocations { AllocationsKeep }
{}

/// The bytes of zero values are zeros.
pub fn zero_values()
    ensures { ZerosAreZero }
{}
