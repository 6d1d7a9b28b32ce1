// The servers of a plan.
ghost use Rattle.std.specs.Prelude.{◌≡◌, [], Ok, length, IfOk, MatchResult};
ghost use Rattle.toml.specs.View.{view, table_view, items_view};
ghost use Rattle.plan_file.specs.Lookup.{Reads, IsRefusal, each_onto};
ghost use Rattle.plan_file.specs.Servers.{server_of, server_at, has_server_name, has_server_number};

use crate::form::TextForm;
use crate::lookup::{has_only, needed_number, needed_text, number_or, pointers_or_narrow};
use crate::{Key, PlanError, Server};
use std::alloc::Global;
use toml::{Table, Value};

// The servers of a list of tables.
pub fn read_servers(alloc: Global, items: &[Value]) -> Result<Vec<Server>, PlanError>
    ensures answer { MatchResult result (λ servers. each_onto server_at [] (items_view items.now) ≡ Ok servers.items)
        (IsRefusal (each_onto server_at [] (items_view items.now))) }
    ensures count { IfOk result (λ servers. length servers.items ≡ length items.now) }
{
    let mut servers = Vec::new(alloc);
    let mut rest = items;
    while let [item, after @ ..] = rest {
        let server = read_item(alloc, &servers, item)?;
        servers.push(server)?;
        rest = after;
    }
    Ok(servers)
}

fn read_item(alloc: Global, earlier: &[Server], item: &Value) -> Result<Server, PlanError>
    ensures { Reads (server_at earlier.now (view item.now)) result }
{
    match item.as_table() {
        Some(table) => read_server(alloc, earlier, table),
        None => Err(PlanError::Field { name: Key::Server }),
    }
}

#[tactic(auto, unfolding(crate::specs::Servers::server_of))]
fn read_server(alloc: Global, earlier: &[Server], table: &Table) -> Result<Server, PlanError>
    ensures { Reads (server_of earlier.now (table_view table.now)) result }
{
    let name = needed_text(alloc, table, "name", Key::ServerName, TextForm::Name)?;
    if has_name(earlier, name.as_str()) {
        return Err(PlanError::Field {
            name: Key::ServerName,
        });
    }
    let number = needed_number(table, "number", Key::ServerNumber, 1, 16)?;
    if has_number(earlier, number) {
        return Err(PlanError::Field {
            name: Key::ServerNumber,
        });
    }
    let source = needed_text(
        alloc,
        table,
        "source",
        Key::ServerSource,
        TextForm::FileName,
    )?;
    let version = number_or(table, "version", Key::ServerVersion, 1, 1_000_000, 1)?;
    let pointers = pointers_or_narrow(table, Key::ServerPointers)?;
    if !has_only(table, &["name", "number", "source", "version", "pointers"]) {
        return Err(PlanError::Field {
            name: Key::ServerUnknown,
        });
    }
    Ok(Server {
        name,
        number,
        source,
        version,
        pointers,
    })
}

fn has_name(servers: &[Server], name: &str) -> bool
    ensures { result ≡ has_server_name servers.now name.now }
{
    servers.iter().any(|server| server.name.as_str() == name)
}

fn has_number(servers: &[Server], number: u32) -> bool
    ensures { result ≡ has_server_number servers.now number }
{
    servers.iter().any(|server| server.number == number)
}
