// The laws of emitted code, each the contract of a function.

ghost use Rattle.cg_sim.specs.Simulation.{CallsRun};

/// A call of a function of a valid program, on machine code of the program, returns the word of the call's result in the
/// process of its store, with its sends and its ticks, or traps as it does, with the same ticks; never by `BadCode`.
pub fn calls()
    ensures { CallsRun }
{}
