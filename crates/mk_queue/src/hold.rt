//! The interface filter of an update.

ghost use Rattle.std.specs.Prelude.{◌≡◌, ◌==◌, ◌&&◌};
ghost use Rattle.mk_queue.specs.Held.{is_held_kind};

use lu_base::{Message, Sequence};

/// The kinds of messages that an update holds back, which it does only while it is active.
#[derive(Debug, Drop)]
pub struct Hold {
    pub active: bool,
    pub kinds: Sequence<i32>,
}

/// Whether the message is of a kind that is held now.
pub fn is_held_kind(hold: &Hold, message: &Message) -> bool
    ensures { result ≡ is_held_kind hold.now message.now }
{
    hold.active && hold.kinds.as_slice().contains(&message.kind)
}
