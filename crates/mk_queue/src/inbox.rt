//! Inboxes.

ghost use Rattle.std.specs.Prelude.{◌≡◌, ◌==◌, ◌<◌, [], ◌∷◌, ◌++◌, length, remove, slice_get, Some, None, OnOk, OnErr};
ghost use Rattle.mk_queue.specs.Held.{next_message};

use crate::front::{Front, least_free, make_front, note_arrival, note_removal};
use crate::hold::Hold;
use lu_base::{Memory, Message};
use std::alloc::Global;
use std::collections::VecDeque;
use std::marker::Model;

/// The messages that wait for a server, and for each source the place of its first message. Clauses see the messages as a
/// list in order of arrival.
#[derive(Debug, Drop)]
pub struct Inbox {
    messages: VecDeque<Message>,
    fronts: Vec<Front>,
}

impl Model for Inbox {
    ghost use Rattle.std.specs.Prelude.{List};
    ghost use Rattle.lu_base.specs.declared.message.Message.{Message};
    ghost use Rattle.mk_queue.specs.Fronts.{AreFronts};

    ghost Value = { List Message };

    ghost view = { λ inbox. inbox.messages.items };

    ghost invariant = { λ inbox. AreFronts inbox.messages.items inbox.fronts.items };
}

impl Inbox {
    /// An inbox without messages. It takes no memory.
    pub fn fresh(alloc: Global) -> Self
        ensures { result ≡ [] }
    {
        Inbox {
            messages: VecDeque::new(alloc),
            fronts: Vec::new(alloc),
        }
    }

    pub fn len(&self) -> usize
        ensures { result ≡ length self.now }
    {
        self.messages.len()
    }

    pub fn is_empty(&self) -> bool
        ensures { result ≡ (length self.now == 0) }
    {
        self.messages.is_empty()
    }

    /// Puts the message behind all others.
    pub fn push(&mut self, message: Message) -> Result<(), Memory>
        ensures ok { OnOk result (self.new ≡ self.old ++ message ∷ []) }
        ensures err { OnErr result (self.new ≡ self.old) }
    {
        let place = self.messages.len();
        make_front(&mut self.fronts, message.source)?;
        self.messages.push_back(message)?;
        note_arrival(&mut self.fronts, message.source, place);
        Ok(())
    }

    /// The place of the first message that isn't held back, if there is one. It looks at the first message of each source
    /// alone, and takes no memory.
    pub fn next(&self, hold: &Hold) -> Option<usize>
        ensures { result ≡ next_message hold.now self.now }
    {
        least_free(hold, &self.messages, &self.fronts)
    }

    /// Takes the message at a place out, and leaves the others in order. It takes no memory.
    pub fn take(&mut self, place: usize) -> Message
        requires { place < length self.old }
        ensures message { slice_get self.old place ≡ Some result }
        ensures rest { self.new ≡ remove self.old place }
    {
        let message = self.messages[place];
        let _ = self.messages.remove(place);
        note_removal(&mut self.fronts, &self.messages, place);
        message
    }
}
