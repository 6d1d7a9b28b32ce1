// The updates of a plan.
ghost use Rattle.std.specs.Prelude.{◌≡◌, ◌<◌, ◌+◌, [], length, true, Ok, IfOk, IsTrue, MatchResult, codes};
ghost use Rattle.toml.specs.View.{view, table_view, items_view};
ghost use Rattle.std.specs.List.{list_all};
ghost use Rattle.plan_file.specs.declared.key.Key.TheVariants as key;
ghost use Rattle.plan_file.specs.Lookup.{Reads, IsRefusal, each_onto, needed};
ghost use Rattle.plan_file.specs.Updates as definitions;

use crate::form::TextForm;
use crate::handler::read_handlers;
use crate::lookup::{find, has_only, needed_number, needed_text, pointers_or_narrow};
use crate::rename::read_renames;
use crate::settings::read_settings;
use crate::{Key, PlanError, Pointers, Server, Update};
use lu_base::Name;
use std::alloc::Global;
use toml::{Table, Value};

// The keys of an update.
const WORDS: [&str; 14] = [
    "name", "server", "from", "to", "source", "pointers", "filter", "hold", "tries", "dangling",
    "gated", "after", "rename", "handler",
];

// The server that an update is of: its place in the plan, and its own version.
#[derive(Clone, Copy, Debug, PartialEq, Eq)]
pub struct Target {
    pub server: usize,
    pub version: u32,
}

// Which step of which server an update is.
#[derive(Debug, Drop)]
pub struct Step {
    pub name: Name,
    pub server: usize,
    pub from: u32,
    pub to: u32,
    pub source: Name,
    pub pointers: Pointers,
}

// The updates of a list of tables.
pub fn read_updates(
    alloc: Global,
    servers: &[Server],
    items: &[Value],
) -> Result<Vec<Update>, PlanError>
    ensures answer { MatchResult result (λ read. each_onto (definitions.update_at servers.now) [] (items_view items.now) ≡ Ok read.items)
        (IsRefusal (each_onto (definitions.update_at servers.now) [] (items_view items.now))) }
    ensures count { IfOk result (λ read. length read.items ≡ length items.now) }
    ensures order { IfOk result (λ read. IsTrue (list_all definitions.has_renames_in_order read.items)) }
{
    let mut read = Vec::new(alloc);
    let mut rest = items;
    while let [item, after @ ..] = rest {
        let update = read_item(alloc, servers, &read, item)?;
        read.push(update)?;
        rest = after;
    }
    Ok(read)
}

fn read_item(
    alloc: Global,
    servers: &[Server],
    earlier: &[Update],
    item: &Value,
) -> Result<Update, PlanError>
    ensures answer { Reads (definitions.update_at servers.now earlier.now (view item.now)) result }
    ensures order { IfOk result (λ update. IsTrue (definitions.has_renames_in_order update)) }
{
    match item.as_table() {
        Some(table) => read_update(alloc, servers, earlier, table),
        None => Err(PlanError::Field { name: Key::Update }),
    }
}

#[tactic(auto, unfolding(crate::specs::Updates::update_of))]
fn read_update(
    alloc: Global,
    servers: &[Server],
    earlier: &[Update],
    table: &Table,
) -> Result<Update, PlanError>
    ensures answer { Reads (definitions.update_of servers.now earlier.now (table_view table.now)) result }
    ensures order { IfOk result (λ update. IsTrue (definitions.has_renames_in_order update)) }
{
    let step = read_step(alloc, servers, earlier, table)?;
    let settings = read_settings(alloc, table)?;
    let rename = read_renames(alloc, table)?;
    let handler = read_handlers(alloc, table)?;
    if !has_only(table, &WORDS) {
        return Err(PlanError::Field {
            name: Key::UpdateUnknown,
        });
    }
    Ok(Update {
        name: step.name,
        server: step.server,
        from: step.from,
        to: step.to,
        source: step.source,
        pointers: step.pointers,
        filter: settings.filter,
        hold: settings.hold,
        tries: settings.tries,
        dangling: settings.dangling,
        gated: settings.gated,
        after: settings.after,
        rename,
        handler,
    })
}

#[tactic(auto, unfolding(crate::specs::Updates::step_of))]
fn read_step(
    alloc: Global,
    servers: &[Server],
    earlier: &[Update],
    table: &Table,
) -> Result<Step, PlanError>
    ensures { Reads (definitions.step_of servers.now earlier.now (table_view table.now)) result }
{
    let name = needed_text(alloc, table, "name", Key::UpdateName, TextForm::Name)?;
    if has_name(earlier, name.as_str()) {
        return Err(PlanError::Field {
            name: Key::UpdateName,
        });
    }
    let target = read_target(servers, table)?;
    let from = needed_number(table, "from", Key::UpdateFrom, 1, 1_000_000)?;
    if !is_version(target, earlier, from) {
        return Err(PlanError::Field {
            name: Key::UpdateFrom,
        });
    }
    let to = needed_number(table, "to", Key::UpdateTo, 1, 1_000_000)?;
    if is_version(target, earlier, to) {
        return Err(PlanError::Field {
            name: Key::UpdateTo,
        });
    }
    let source = needed_text(
        alloc,
        table,
        "source",
        Key::UpdateSource,
        TextForm::FileName,
    )?;
    let pointers = pointers_or_narrow(table, Key::UpdatePointers)?;
    Ok(Step {
        name,
        server: target.server,
        from,
        to,
        source,
        pointers,
    })
}

fn has_name(updates: &[Update], name: &str) -> bool
    ensures { result ≡ definitions.has_update_name updates.now name.now }
{
    updates.iter().any(|update| update.name.as_str() == name)
}

fn read_target(servers: &[Server], table: &Table) -> Result<Target, PlanError>
    ensures { result ≡ needed (table_view table.now) (codes "server") key.UpdateServer (definitions.target_of servers.now) }
{
    match find(table, "server") {
        None => Err(PlanError::Field {
            name: Key::UpdateServer,
        }),
        Some(value) => match target_in(servers, value) {
            Some(target) => Ok(target),
            None => Err(PlanError::Field {
                name: Key::UpdateServer,
            }),
        },
    }
}

fn target_in(servers: &[Server], value: &Value) -> Option<Target>
    ensures { result ≡ definitions.target_of servers.now (view value.now) }
{
    match value.as_str() {
        Some(name) => target_named(servers, name),
        None => None,
    }
}

fn target_named(servers: &[Server], name: &str) -> Option<Target>
    ensures { result ≡ definitions.target_from 0 servers.now name.now }
{
    let mut place = 0;
    let mut rest = servers;
    while let [server, after @ ..] = rest {
        if server.name.as_str() == name {
            return Some(Target {
                server: place,
                version: server.version,
            });
        }
        place += 1;
        rest = after;
    }
    None
}

// Whether the server has a program of that version: its own, or that of an earlier update.
fn is_version(target: Target, earlier: &[Update], version: u32) -> bool
    ensures { result ≡ definitions.is_version target earlier.now version }
{
    target.version == version || is_update_of(target, earlier, version)
}

fn is_update_of(target: Target, earlier: &[Update], version: u32) -> bool
    ensures { result ≡ definitions.is_reached target earlier.now version }
{
    earlier.iter().any(|update| update.server == target.server && update.to == version)
}
