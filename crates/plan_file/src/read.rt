ghost use Rattle.std.specs.Prelude.{◌≡◌, ◌≤◌, codes, length, IfOk, IsTrue, MatchResult, Some};
ghost use Rattle.std.specs.List.{list_all};
ghost use Rattle.toml.specs.Data.{get_member};
ghost use Rattle.toml.specs.View.{table_view};
ghost use Rattle.plan_file.specs.Lookup.{Reads};
ghost use Rattle.plan_file.specs.Plans.{plan_of, plan_in, servers_of, updates_of, document_of, IsUnread};
ghost use Rattle.plan_file.specs.Updates.{has_renames_in_order};
ghost use Rattle.plan_file.specs.Kept.{KeepsForms};

use crate::form::TextForm;
use crate::lookup::{find, has_only, needed_text, table_items};
use crate::server::read_servers;
use crate::update::read_updates;
use crate::{Key, LimitedList, Plan, PlanError, Sequence, Server, Update};
use std::alloc::Global;
use toml::Table;

/// The plan that a file's bytes stand for, which keeps the forms and limits of all keys, or the first refusal in the order of
/// `Key`. `NotToml` comes before all others.
#[tactic(auto, unfolding(crate::specs::Plans::plan_of))]
pub fn read_plan(alloc: Global, bytes: &[u8]) -> Result<Plan, PlanError>
    ensures answer { Reads (plan_of bytes.now) result }
    ensures forms { IfOk result KeepsForms }
{
    let document = read_document(alloc, bytes)?;
    plan_in(alloc, &document)
}

#[tactic(auto, using(crate::proofs::Documents::documents))]
fn read_document(alloc: Global, bytes: &[u8]) -> Result<Table, PlanError>
    ensures { MatchResult result (λ table. document_of bytes.now ≡ Some (table_view table)) (IsUnread bytes.now) }
{
    match std::str::from_utf8(bytes) {
        Err(_) => Err(PlanError::NotToml),
        Ok(text) => match toml::table_from_str(alloc, text) {
            Ok(table) => Ok(table),
            Err(fault) if fault.is_memory() => Err(PlanError::Memory),
            Err(_) => Err(PlanError::NotToml),
        },
    }
}

#[tactic(auto, unfolding(crate::specs::Plans::plan_in))]
fn plan_in(alloc: Global, document: &Table) -> Result<Plan, PlanError>
    ensures answer { Reads (plan_in (table_view document.now)) result }
    ensures forms { IfOk result KeepsForms }
{
    let schedule = needed_text(
        alloc,
        document,
        "schedule",
        Key::Schedule,
        TextForm::FileName,
    )?;
    let server = servers(alloc, document)?;
    let update = updates(alloc, server.as_slice(), document)?;
    if !has_only(document, &["schedule", "server", "update"]) {
        return Err(PlanError::Field { name: Key::Unknown });
    }
    Ok(Plan {
        schedule,
        server,
        update,
    })
}

fn servers(alloc: Global, document: &Table) -> Result<Sequence<Server>, PlanError>
    ensures answer { Reads (servers_of (get_member (codes "server") (table_view document.now))) result }
    ensures count { IfOk result (λ servers. (1 ≤ length servers) × (length servers ≤ 16)) }
{
    match find(document, "server") {
        None => Err(PlanError::Field { name: Key::Server }),
        Some(value) => {
            let items = table_items(value, Key::Server, LimitedList::Servers, 1, 16)?;
            Ok(Sequence::from_vec(read_servers(alloc, items)?))
        }
    }
}

fn updates(
    alloc: Global,
    servers: &[Server],
    document: &Table,
) -> Result<Sequence<Update>, PlanError>
    ensures answer { Reads (updates_of servers.now (get_member (codes "update") (table_view document.now))) result }
    ensures count { IfOk result (λ updates. length updates ≤ 64) }
    ensures order { IfOk result (λ updates. IsTrue (list_all has_renames_in_order updates)) }
{
    match find(document, "update") {
        None => Ok(Sequence::from_vec(Vec::new(alloc))),
        Some(value) => {
            let items = table_items(value, Key::Update, LimitedList::Updates, 0, 64)?;
            Ok(Sequence::from_vec(read_updates(alloc, servers, items)?))
        }
    }
}
