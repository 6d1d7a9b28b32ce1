// The laws of servers, each the contract of a function.

ghost use Rattle.cg_meaning.specs.Runs.{BootsBegin, CallsBegin, DeliveriesBegin, RunsOfCalls, RunsOfDeliveries};
ghost use Rattle.cg_meaning.specs.Servers.{AdoptedServers, NewServers};

/// A new server stands for the initial store of its program, and one that adopts the bytes and rows of a store for that store.
pub fn new_servers()
    ensures start { NewServers }
    ensures adopt { AdoptedServers }
{}

/// A call begins as the call of the text, and runs of it pause or end as that call does.
pub fn server_calls()
    ensures begin { CallsBegin }
    ensures run { RunsOfCalls }
{}

/// `init` and a delivery begin as those of the text, and runs of them pause or end as these do.
pub fn deliveries()
    ensures boot { BootsBegin }
    ensures begin { DeliveriesBegin }
    ensures run { RunsOfDeliveries }
{}
