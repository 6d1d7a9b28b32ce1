//! Kernel, the mail of servers: layer of the servers with their inboxes, over inboxes and the system's definitions. It takes a
//! server's name and numbers, messages and what happened, and gives its cell: its inbox, all that ever arrived in it, what its
//! death answered, what it sent, its history, its version and its trap. Its contract: each edit of a cell is exactly that of
//! the definition, and without memory the cell is as it was; what servers send, and their deaths, leave exactly the mail of the
//! definitions in the cells and the notes, where memory lasts.
#![tactic(auto)]

mod cell;
mod mail;

pub use cell::Cell;
pub use lu_base::Memory;
pub use mail::{
    answer_comes, answer_each, answer_to, arrive_at, boot, die, die_in_delivery, end_delivery,
    find_server, make_reply, post_each, post_one, put_at, send, tell,
};
