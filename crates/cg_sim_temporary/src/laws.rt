// The laws of temporaries, the contract of a function.

ghost use Rattle.cg_sim_temporary.specs.Temporaries.{FreesNothing, FreesTemporaries, PlacesTemporaries};

/// A temporary is placed behind the objects of the store exactly where these leave room for it. Taking away what begins at an
/// address is a free of the live heap object that begins there, and nothing where none does.
pub fn temporaries()
    ensures placed { PlacesTemporaries }
    ensures freed { FreesTemporaries }
    ensures nothing { FreesNothing }
{}
