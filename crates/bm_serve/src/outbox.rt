// Messages that wait to leave.

ghost use Rattle.std.specs.Prelude.{◌≡◌, ◌<◌, ◌≤◌, ◌==◌, [], ◌∷◌, ◌++◌, length, IfOk};
ghost use Rattle.lu_base.specs.declared.limits.TheConstants.{SENDS};

use lu_base::limits::SENDS;
use lu_base::{Memory, Message};
use std::alloc::Global;
use std::marker::Model;

/// The messages that a delivery has sent, in order, each with the number of its recipient. Contracts see the list. Room
/// for all is made at once, so that a push takes no memory.
#[derive(Debug, Drop)]
pub struct Outbox {
    sends: Vec<(i32, Message)>,
}

impl Model for Outbox {
    ghost use Rattle.std.specs.Prelude.{◌≤◌, List, length, vec_capacity};
    ghost use Rattle.lu_base.specs.declared.limits.TheConstants.{SENDS};
    ghost use Rattle.lu_base.specs.Sending.{Sent};

    ghost Value = { List Sent };

    ghost view = { λ o. o.sends.items };

    ghost invariant = { λ o. (SENDS ≤ vec_capacity o.sends) × (length o.sends.items ≤ SENDS) };
}

impl Outbox {
    /// No messages, and room for as many as may wait.
    pub fn fresh(alloc: Global) -> Result<Self, Memory>
        ensures { IfOk result (λ outbox. outbox ≡ []) }
    {
        Ok(Outbox {
            sends: Vec::with_capacity(alloc, SENDS)?,
        })
    }

    /// How many messages wait.
    pub fn len(&self) -> usize
        ensures count { result ≡ length self.now }
        ensures bound { length self.now ≤ SENDS }
    {
        self.sends.len()
    }

    /// Whether none waits.
    pub fn is_empty(&self) -> bool
        ensures { result ≡ (length self.now == 0) }
    {
        self.sends.is_empty()
    }

    /// Puts a message for `to` behind the others. It takes no memory.
    pub fn push(&mut self, to: i32, message: Message)
        requires { length self.old < SENDS }
        ensures { self.new ≡ self.old ++ (to, message) ∷ [] }
    {
        self.sends.push_reserved((to, message));
    }

    /// Drops all messages, and keeps the room.
    pub fn clear(&mut self)
        ensures { self.new ≡ [] }
    {
        self.sends.clear();
    }

    /// The messages in order.
    pub fn as_slice(&self) -> &[(i32, Message)]
        ensures value { result.now ≡ self.now }
        ensures bound { length self.now ≤ SENDS }
    {
        self.sends.as_slice()
    }
}
