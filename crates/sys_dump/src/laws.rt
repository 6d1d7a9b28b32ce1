// The law of dumps, the contract of a function.

ghost use Rattle.sys_dump.specs.Dumps.{DumpsTellStores};

/// The dump of a server's process is that of the store for which the server stands.
pub fn dumps()
    ensures { DumpsTellStores }
{}
