// The laws of stores and of messages in them, each the contract of a function.

ghost use Rattle.cg_sim_store.specs.Messages.{MessagesHaveBytes, TakeMessages};
ghost use Rattle.cg_sim_store.specs.Stores.{InitialIsStore};

/// The initial store of a valid program is a store of the program.
pub fn initial_stores()
    ensures { InitialIsStore }
{}

/// `m_in` and `m_out` take messages: with one put there a store stays a store of the program, and in the process that stands
/// for it only the bytes of that object change, to those of the message.
pub fn messages()
    ensures taken { TakeMessages }
    ensures bytes { MessagesHaveBytes }
{}
