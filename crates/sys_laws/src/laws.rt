// Laws of worlds, each the contract of a function.

ghost use Rattle.sys_laws.specs.Laws.{ServersStay, DeadInboxesAreEmpty, MessagesKeepOrder, DeliveriesCameFirst, HistoriesReplay};

/// Each server of the setup is at its place in every world, with its name and its numbers.
pub fn servers()
    ensures { ServersStay }
{}

/// A dead server has no message waiting.
pub fn dead_inboxes()
    ensures { DeadInboxesAreEmpty }
{}

/// The messages of a source are delivered in the order in which they arrived, each at most once.
pub fn message_order()
    ensures whole { MessagesKeepOrder }
    ensures delivered { DeliveriesCameFirst }
{}

/// A server is where its history leads from the boot of its first program, and has sent what that sends.
pub fn replay()
    ensures { HistoriesReplay }
{}
