//! Servers. Layer: the compiler. Takes: a program's code and memory. Gives: `Server`, which runs `init`, deliveries, calls and
//! filters by ticks, and tells its objects. Its one contract: each call is an equation of the machine's process, by the
//! machine's meaning of the code.
#![tactic(auto)]

mod dump;
mod handlers;
mod messages;
pub mod server;
mod temporary;

pub use bm_code::stop::Stop;
pub use server::Server;
