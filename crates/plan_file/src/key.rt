ghost use Rattle.std.specs.Prelude.{◌≡◌};
ghost use Rattle.plan_file.specs.Keys.{key_text, list_text};

/// A key of a plan, in the order in which keys are tried. The keys of a server, an update, a rename table or a handler are
/// tried for each such table in turn.
#[derive(Clone, Copy, Debug, PartialEq, Eq)]
pub enum Key {
    Schedule,
    Server,
    ServerName,
    ServerNumber,
    ServerSource,
    ServerVersion,
    ServerPointers,
    /// A key of a server that is none of the keys above.
    ServerUnknown,
    Update,
    UpdateName,
    UpdateServer,
    UpdateFrom,
    UpdateTo,
    UpdateSource,
    UpdatePointers,
    UpdateFilter,
    UpdateHold,
    UpdateTries,
    UpdateDangling,
    UpdateGated,
    UpdateAfter,
    UpdateRename,
    RenameGlobal,
    RenameStruct,
    RenameField,
    RenameUnion,
    RenameMember,
    RenameFunction,
    RenameSite,
    /// A rename table that is none of those above.
    RenameUnknown,
    UpdateHandler,
    HandlerStruct,
    HandlerOldForm,
    HandlerFunction,
    /// A key of a handler that is none of the keys above.
    HandlerUnknown,
    /// A key of an update that is none of the keys above.
    UpdateUnknown,
    /// A key of the document that is neither `schedule`, `server` nor `update`.
    Unknown,
}

impl Key {
    /// The key with the names of the tables that it stands in, or `?` in place of an unknown key.
    pub fn as_str(self) -> &'static str
        ensures { result.now ≡ key_text self }
    {
        match self {
            Key::Schedule => "schedule",
            Key::Server => "server",
            Key::ServerName => "server.name",
            Key::ServerNumber => "server.number",
            Key::ServerSource => "server.source",
            Key::ServerVersion => "server.version",
            Key::ServerPointers => "server.pointers",
            Key::ServerUnknown => "server.?",
            Key::Update => "update",
            Key::UpdateName => "update.name",
            Key::UpdateServer => "update.server",
            Key::UpdateFrom => "update.from",
            Key::UpdateTo => "update.to",
            Key::UpdateSource => "update.source",
            Key::UpdatePointers => "update.pointers",
            Key::UpdateFilter => "update.filter",
            Key::UpdateHold => "update.hold",
            Key::UpdateTries => "update.tries",
            Key::UpdateDangling => "update.dangling",
            Key::UpdateGated => "update.gated",
            Key::UpdateAfter => "update.after",
            Key::UpdateRename => "update.rename",
            Key::RenameGlobal => "update.rename.global",
            Key::RenameStruct => "update.rename.struct",
            Key::RenameField => "update.rename.field",
            Key::RenameUnion => "update.rename.union",
            Key::RenameMember => "update.rename.member",
            Key::RenameFunction => "update.rename.function",
            Key::RenameSite => "update.rename.site",
            Key::RenameUnknown => "update.rename.?",
            Key::UpdateHandler => "update.handler",
            Key::HandlerStruct => "update.handler.struct",
            Key::HandlerOldForm => "update.handler.old_form",
            Key::HandlerFunction => "update.handler.function",
            Key::HandlerUnknown => "update.handler.?",
            Key::UpdateUnknown => "update.?",
            Key::Unknown => "?",
        }
    }
}

/// A list whose length is limited.
#[derive(Clone, Copy, Debug, PartialEq, Eq)]
pub enum LimitedList {
    /// 1..16 servers.
    Servers,
    /// 0..64 updates.
    Updates,
    /// 0..16 handlers of one update.
    Handlers,
}

impl LimitedList {
    /// The key of the list's tables.
    pub fn as_str(self) -> &'static str
        ensures { result.now ≡ list_text self }
    {
        match self {
            LimitedList::Servers => "server",
            LimitedList::Updates => "update",
            LimitedList::Handlers => "handler",
        }
    }
}
