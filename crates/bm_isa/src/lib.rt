//! Machine, instructions: takes instructions, gives their bytes, and back. `decode` answers exactly the instructions whose
//! bytes `encode` gives, or where the first bad one begins.
#![tactic(auto)]

mod decoder;
mod encoder;
mod error;
mod instr;
mod table;

pub use decoder::decode;
pub use encoder::encode;
pub use error::IsaError;
pub use instr::{Instr, Operands};
pub use lu_base::Memory;
