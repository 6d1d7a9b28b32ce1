// The laws of systems, each the contract of a function.

ghost use Rattle.sys_exact.specs.Start.{StartsAreExact};
ghost use Rattle.sys_exact.specs.Laws.{EventsAreExact};

/// Servers at the start of their programs stand for the world before the boot.
pub fn starts()
    ensures { StartsAreExact }
{}

/// Processes that stand for a world stand, after an event, for what the definition makes of that world.
pub fn events()
    ensures { EventsAreExact }
{}
