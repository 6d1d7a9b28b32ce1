//! Update, addresses: layer of the update's work, over the pairing of two programs and the rows of the old process. It takes
//! those rows and the numbers of the needed objects, and gives the rows of the new process; and for an address of the old
//! process the old object and the offset in the object's image.
//! Its contract: `AddressMap::build` answers exactly the new rows, or exactly where the heap's limit is passed, and
//! `address_image` exactly the image of a pointer by its address, or exactly its fault.
#![tactic(auto)]

mod aim;
mod descent;
mod elements;
mod error;
mod map;
mod placing;
mod rows;
mod search;
mod shapes;
mod spot;
mod step;

pub use aim::Aim;
pub use descent::{Descent, Extent};
pub use error::MapError;
pub use map::AddressMap;
pub use rows::{RemapFault, Target, row_image};
pub use search::address_image;
