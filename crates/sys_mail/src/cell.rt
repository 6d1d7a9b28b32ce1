//! Cells.

ghost use Rattle.std.specs.Prelude.{◌≡◌, ◌<◌, ◌≤◌, ◌+◌, [], length, slice_get, None, Some, OnOk, OnErr, IfOk, vec_capacity};
ghost use Rattle.sys_world.specs.declared.happened.Happened.TheVariants.{Delivered};
ghost use Rattle.sys_world.specs.Mail.{with_arrival, with_sent, with_history, with_trap, with_commit, without};

use lu_base::{Memory, Message, Name, Trap};
use mk_queue::Inbox;
use std::alloc::Global;
use std::marker::Model;
use sys_world::Happened;

/// The plain data of a server. Clauses see them as the value of the definitions, and beside it how many more entries the
/// history has room for.
#[derive(Debug, Drop)]
pub struct Cell {
    name: Name,
    number: i32,
    version: u32,
    trap: Option<Trap>,
    inbox: Inbox,
    arrived: Vec<Message>,
    answered: Vec<Message>,
    sent: Vec<(i32, Message)>,
    history: Vec<Happened>,
}

impl Model for Cell {
    ghost use Rattle.std.specs.Prelude.{◌-◌, vec_len, vec_capacity};
    ghost use Rattle.sys_mail.specs.Room.{CellRoom};

    ghost Value = { CellRoom };

    ghost view = { λ c. record {
      value = record {
        name = c.name;
        number = c.number;
        version = c.version;
        trap = c.trap;
        inbox = c.inbox;
        arrived = c.arrived.items;
        answered = c.answered.items;
        sent = c.sent.items;
        history = c.history.items;
      };
      spare = vec_capacity c.history - vec_len c.history;
    } };
}

impl Cell {
    /// The cell of a server before its boot. It takes no memory.
    pub fn fresh(alloc: Global, name: Name, number: i32, version: u32) -> Self
        ensures name { result.value.name ≡ name }
        ensures number { result.value.number ≡ number }
        ensures version { result.value.version ≡ version }
        ensures trap { result.value.trap ≡ None }
        ensures inbox { result.value.inbox ≡ [] }
        ensures arrived { result.value.arrived ≡ [] }
        ensures answered { result.value.answered ≡ [] }
        ensures sent { result.value.sent ≡ [] }
        ensures history { result.value.history ≡ [] }
    {
        Cell {
            name,
            number,
            version,
            trap: None,
            inbox: Inbox::fresh(alloc),
            arrived: Vec::new(alloc),
            answered: Vec::new(alloc),
            sent: Vec::new(alloc),
            history: Vec::new(alloc),
        }
    }

    /// The server's name.
    pub fn name(&self) -> &Name
        ensures { result.now ≡ self.now.value.name }
    {
        &self.name
    }

    /// The number that messages of the server go by.
    pub fn number(&self) -> i32
        ensures { result ≡ self.now.value.number }
    {
        self.number
    }

    /// The version that the server runs.
    pub fn version(&self) -> u32
        ensures { result ≡ self.now.value.version }
    {
        self.version
    }

    /// What the server died of, if it is dead.
    pub fn trap(&self) -> Option<Trap>
        ensures { result ≡ self.now.value.trap }
    {
        self.trap
    }

    /// The messages that wait.
    pub fn inbox(&self) -> &Inbox
        ensures { result.now ≡ self.now.value.inbox }
    {
        &self.inbox
    }

    /// All messages that ever came into the inbox, in order.
    pub fn arrived(&self) -> &[Message]
        ensures { result.now ≡ self.now.value.arrived }
    {
        self.arrived.as_slice()
    }

    /// What the server sent, in order, each message with its destination.
    pub fn sent(&self) -> &[(i32, Message)]
        ensures { result.now ≡ self.now.value.sent }
    {
        self.sent.as_slice()
    }

    /// What happened to the server, in order.
    pub fn history(&self) -> &[Happened]
        ensures { result.now ≡ self.now.value.history }
    {
        self.history.as_slice()
    }

    /// Puts a message last into the inbox.
    pub fn arrive(&mut self, message: Message) -> Result<(), Memory>
        ensures ok { OnOk result (self.new.value ≡ with_arrival message self.old.value) }
        ensures err { OnErr result (self.new.value ≡ self.old.value) }
        ensures room { self.new.spare ≡ self.old.spare }
    {
        self.arrived.reserve(1)?;
        self.inbox.push(message)?;
        self.arrived.push_reserved(message);
        Ok(())
    }

    /// Takes the message at a place out of the inbox. It takes no memory.
    pub fn take(&mut self, place: usize) -> Message
        requires { place < length self.old.value.inbox }
        ensures message { slice_get self.old.value.inbox place ≡ Some result }
        ensures rest { self.new.value ≡ without place self.old.value }
        ensures room { self.new.spare ≡ self.old.spare }
    {
        self.inbox.take(place)
    }

    /// Keeps what the server sent, each with its destination.
    pub fn keep_sent(&mut self, sends: &[(i32, Message)]) -> Result<(), Memory>
        ensures ok { OnOk result (self.new.value ≡ with_sent sends.now self.old.value) }
        ensures err { OnErr result (self.new.value ≡ self.old.value) }
        ensures room { self.new.spare ≡ self.old.spare }
    {
        self.sent.extend_from_slice(sends)?;
        Ok(())
    }

    /// Keeps in the history that the delivery of a message ended. There is room for one more entry behind it.
    pub fn keep_delivery(&mut self, message: Message) -> Result<(), Memory>
        ensures ok { OnOk result (self.new.value ≡ with_history (Delivered message) self.old.value) }
        ensures room { OnOk result (0 < self.new.spare) }
        ensures err { OnErr result (self.new.value ≡ self.old.value) }
    {
        self.history.reserve(2)?;
        self.history.push_reserved(Happened::Delivered(message));
        Ok(())
    }

    /// Makes room for one more entry of the history, if there is none.
    pub fn make_room(&mut self) -> Result<(), Memory>
        ensures value { self.new.value ≡ self.old.value }
        ensures room { OnOk result (0 < self.new.spare) }
    {
        self.history.reserve(1)?;
        Ok(())
    }

    /// The update of that number commits, and the server runs another version. It takes no memory.
    pub fn commit(&mut self, update: u32, version: u32)
        requires { 0 < self.old.spare }
        ensures { self.new.value ≡ with_commit update version self.old.value }
    {
        self.history.push_reserved(Happened::Committed(update));
        self.version = version;
    }

    /// The server dies: its inbox becomes what its death answers, which is also given.
    pub fn die(&mut self, alloc: Global, trap: Trap) -> Result<Vec<Message>, Memory>
        ensures ok { OnOk result (self.new.value ≡ with_trap trap self.old.value) }
        ensures waited { IfOk result (λ waited. waited.items ≡ self.old.value.inbox) }
        ensures err { OnErr result (self.new.value ≡ self.old.value) }
        ensures room { self.new.spare ≡ self.old.spare }
    {
        let mut waited = Vec::with_capacity(alloc, self.inbox.len())?;
        let mut answered = Vec::with_capacity(alloc, self.inbox.len())?;
        drain(&mut self.inbox, &mut waited, &mut answered);
        self.answered = answered;
        self.trap = Some(trap);
        Ok(waited)
    }
}

// Takes all messages out of an inbox, in order, into two empty lists with room for them. It takes no memory.
fn drain(inbox: &mut Inbox, first: &mut Vec<Message>, second: &mut Vec<Message>)
    requires first { first.old.items ≡ [] }
    requires second { second.old.items ≡ [] }
    requires room { length inbox.old ≤ vec_capacity first.old }
    requires more_room { length inbox.old ≤ vec_capacity second.old }
    ensures inbox { inbox.new ≡ [] }
    ensures taken { first.new.items ≡ inbox.old }
    ensures taken_twice { second.new.items ≡ inbox.old }
{
    while !inbox.is_empty() {
        let message = inbox.take(0);
        first.push_reserved(message);
        second.push_reserved(message);
    }
}
