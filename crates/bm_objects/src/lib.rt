//! Machine, objects: the rows of a process's objects by address, the dead ones too. `Objects::find` answers exactly the
//! row that has an address among its bytes or as its end.
#![tactic(auto)]

mod objects;
mod row;
mod search;

pub use lu_base::Memory;
pub use objects::Objects;
pub use row::Row;
