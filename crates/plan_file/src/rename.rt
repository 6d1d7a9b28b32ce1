// The rename tables of an update.
ghost use Rattle.std.specs.Prelude.{◌≡◌, ◌+◌, [], ◌∷◌, ◌++◌, Ok, codes, IfOk, IsTrue, MatchResult, OnOk, string_bytes};
ghost use Rattle.toml.specs.Data.{get_member};
ghost use Rattle.toml.specs.View.{view, table_view};
ghost use Rattle.plan_file.specs.Lookup.{Reads, IsRefusal, or_field};
ghost use Rattle.plan_file.specs.Renames as renames;

use crate::form::{is_dotted, is_name, is_site};
use crate::lookup::{copied, find, has_only};
use crate::{Key, PlanError, Rename, Sequence};
use std::alloc::Global;
use toml::{Table, Value};

// A rename table.
#[derive(Clone, Copy, Debug, PartialEq, Eq)]
pub enum RenameTable {
    Global,
    Struct,
    Field,
    Union,
    Member,
    Function,
    Site,
}

impl RenameTable {
    ghost use Rattle.plan_file.specs.Renames as renames;

    fn word(self) -> &'static str
        ensures { result.now ≡ renames.rename_word self }
    {
        match self {
            RenameTable::Global => "global",
            RenameTable::Struct => "struct",
            RenameTable::Field => "field",
            RenameTable::Union => "union",
            RenameTable::Member => "member",
            RenameTable::Function => "function",
            RenameTable::Site => "site",
        }
    }

    fn key(self) -> Key
        ensures { result ≡ renames.rename_key self }
    {
        match self {
            RenameTable::Global => Key::RenameGlobal,
            RenameTable::Struct => Key::RenameStruct,
            RenameTable::Field => Key::RenameField,
            RenameTable::Union => Key::RenameUnion,
            RenameTable::Member => Key::RenameMember,
            RenameTable::Function => Key::RenameFunction,
            RenameTable::Site => Key::RenameSite,
        }
    }

    fn is_old(self, text: &[u8]) -> bool
        ensures { result ≡ renames.is_old self text.now }
    {
        match self {
            RenameTable::Field | RenameTable::Member => is_dotted(text),
            RenameTable::Site => is_site(text),
            _ => is_name(text),
        }
    }

    fn is_new(self, text: &[u8]) -> bool
        ensures { result ≡ renames.is_new self text.now }
    {
        match self {
            RenameTable::Site => is_site(text),
            _ => is_name(text),
        }
    }
}

// The renames of an update's table.
pub fn read_renames(alloc: Global, table: &Table) -> Result<Sequence<Rename>, PlanError>
    ensures answer { Reads (renames.renames_of (get_member (codes "rename") (table_view table.now))) result }
    ensures order { IfOk result (λ found. IsTrue (renames.are_in_order found)) }
{
    match find(table, "rename") {
        None => Ok(Sequence::from_vec(Vec::new(alloc))),
        Some(value) => match value.as_table() {
            None => Err(PlanError::Field {
                name: Key::UpdateRename,
            }),
            Some(tables) => Ok(Sequence::from_vec(read_tables(alloc, tables)?)),
        },
    }
}

fn read_tables(alloc: Global, tables: &Table) -> Result<Vec<Rename>, PlanError>
    ensures answer { MatchResult result (λ found. renames.renames_in (table_view tables.now) ≡ Ok found.items)
        (IsRefusal (renames.renames_in (table_view tables.now))) }
    ensures order { IfOk result (λ found. IsTrue (renames.are_in_order found.items)) }
{
    let mut found = Vec::new(alloc);
    push_table(alloc, &mut found, tables, RenameTable::Global)?;
    push_table(alloc, &mut found, tables, RenameTable::Struct)?;
    push_table(alloc, &mut found, tables, RenameTable::Field)?;
    push_table(alloc, &mut found, tables, RenameTable::Union)?;
    push_table(alloc, &mut found, tables, RenameTable::Member)?;
    push_table(alloc, &mut found, tables, RenameTable::Function)?;
    push_table(alloc, &mut found, tables, RenameTable::Site)?;
    if has_only(
        tables,
        &[
            "global", "struct", "field", "union", "member", "function", "site",
        ],
    ) {
        Ok(found)
    } else {
        Err(PlanError::Field {
            name: Key::RenameUnknown,
        })
    }
}

// Appends the renames of one table, where it is there.
fn push_table(
    alloc: Global,
    found: &mut Vec<Rename>,
    tables: &Table,
    kind: RenameTable,
) -> Result<(), PlanError>
    requires { IsTrue (renames.are_in_order_below (renames.table_number kind) found.old.items) }
    ensures answer { MatchResult result
        (λ _. renames.table_onto kind found.old.items (get_member (renames.rename_word kind) (table_view tables.now)) ≡ Ok found.new.items)
        (IsRefusal (renames.table_onto kind found.old.items (get_member (renames.rename_word kind) (table_view tables.now)))) }
    ensures order { OnOk result (IsTrue (renames.are_in_order_below (renames.table_number kind + 1) found.new.items)) }
{
    match find(tables, kind.word()) {
        None => Ok(()),
        Some(value) => match value.as_table() {
            None => Err(PlanError::Field { name: kind.key() }),
            Some(entries) => push_entries(alloc, found, entries, kind),
        },
    }
}

fn push_entries(
    alloc: Global,
    found: &mut Vec<Rename>,
    entries: &Table,
    kind: RenameTable,
) -> Result<(), PlanError>
    requires { IsTrue (renames.are_in_order_below (renames.table_number kind) found.old.items) }
    ensures answer { MatchResult result
        (λ _. renames.entries_onto kind found.old.items (table_view entries.now) ≡ Ok found.new.items)
        (IsRefusal (renames.entries_onto kind found.old.items (table_view entries.now))) }
    ensures order { OnOk result (IsTrue (renames.are_in_order_below (renames.table_number kind + 1) found.new.items)) }
{
    for (old, value) in entries.iter() {
        let rename = read_rename(alloc, kind, old.as_str(), value)?;
        found.push(rename)?;
    }
    Ok(())
}

fn read_rename(
    alloc: Global,
    kind: RenameTable,
    old: &str,
    value: &Value,
) -> Result<Rename, PlanError>
    ensures { Reads (or_field (renames.rename_key kind) (renames.rename_of kind old.now (view value.now))) result }
{
    match value.as_str() {
        Some(new) if kind.is_old(old.as_bytes()) && kind.is_new(new.as_bytes()) => Ok(Rename {
            table: copied(alloc, kind.word())?,
            old: copied(alloc, old)?,
            new: copied(alloc, new)?,
        }),
        _ => Err(PlanError::Field { name: kind.key() }),
    }
}
