// The laws of emitted code, each the contract of a function.

ghost use Rattle.cg_sim_expr.specs.Simulation.{ExpressionsRun, PlacesRun};

/// The code of an expression gives the word of its value, or traps as the text does, and never by `BadCode`.
pub fn expressions()
    ensures { ExpressionsRun }
{}

/// The code of a place gives its address, or traps as the text does, and never by `BadCode`.
pub fn places()
    ensures { PlacesRun }
{}
