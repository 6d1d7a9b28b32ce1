// The laws of what the compiler makes, each the contract of a function.

ghost use Rattle.cg_sim_program.specs.SourceCode.{AreCompiled, StartInitial, SourceCallsRun};
ghost use Rattle.cg_sim_program.specs.Slices.{CallsRunInSlices};

/// The machine's program of a source has the functions, sites and globals of its program.
pub fn codes()
    ensures { AreCompiled }
{}

/// The machine's program of a source starts as the process of the initial store.
pub fn starts()
    ensures { StartInitial }
{}

/// A call of a function of the program, on the machine's program of a source, returns the word of the call's result in the
/// process of its store, with its sends and its ticks, or traps as it does, with the same ticks; never by `BadCode`.
pub fn source_calls()
    ensures { SourceCallsRun }
{}

/// A call that begins in a process that stands for a store, run in slices of ticks, pauses while they are fewer than the call of
/// the text uses, and with as many or more ends as that call, in the process of its store with its sends, or by its trap. Where
/// an allocation was refused in between, a further run goes on to the same end.
pub fn slices()
    ensures { CallsRunInSlices }
{}
