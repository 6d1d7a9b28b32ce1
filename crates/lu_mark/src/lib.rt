//! Which objects of a graph are needed: layer of the update, over the definition of needed objects. It takes the roots of a
//! graph and, for one object after another, the objects that may come next, and gives the list of the needed objects. Its
//! one contract is that of `Marks::step`: a walk over a graph goes on as one, it is done exactly where it has walked as many
//! objects as are needed, and the marked objects are then exactly the needed ones, in order.
#![tactic(auto)]

mod marks;

pub use lu_base::Memory;
pub use marks::{Marks, WalkState};
