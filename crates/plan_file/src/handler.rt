// The handlers of an update.
ghost use Rattle.std.specs.Prelude.{◌≡◌, [], Ok, MatchResult};
ghost use Rattle.toml.specs.Data.{get_member};
ghost use Rattle.toml.specs.View.{view, table_view, items_view};
ghost use Rattle.plan_file.specs.Lookup.{Reads, IsRefusal, each_onto};
ghost use Rattle.plan_file.specs.Handlers.{handler_of, handler_at, handler_in, handlers_of};
ghost use Rattle.std.specs.Prelude.{codes};

use crate::form::TextForm;
use crate::lookup::{find, has_only, needed_text, table_items};
use crate::{Handler, Key, LimitedList, PlanError, Sequence};
use std::alloc::Global;
use toml::{Table, Value};

// The handlers of an update's table.
pub fn read_handlers(alloc: Global, table: &Table) -> Result<Sequence<Handler>, PlanError>
    ensures { Reads (handlers_of (get_member (codes "handler") (table_view table.now))) result }
{
    match find(table, "handler") {
        None => Ok(Sequence::from_vec(Vec::new(alloc))),
        Some(value) => {
            let items = table_items(value, Key::UpdateHandler, LimitedList::Handlers, 0, 16)?;
            Ok(Sequence::from_vec(read_items(alloc, items)?))
        }
    }
}

fn read_items(alloc: Global, items: &[Value]) -> Result<Vec<Handler>, PlanError>
    ensures { MatchResult result (λ handlers. each_onto handler_at [] (items_view items.now) ≡ Ok handlers.items)
        (IsRefusal (each_onto handler_at [] (items_view items.now))) }
{
    let mut handlers = Vec::new(alloc);
    let mut rest = items;
    while let [item, after @ ..] = rest {
        let handler = read_item(alloc, item)?;
        handlers.push(handler)?;
        rest = after;
    }
    Ok(handlers)
}

fn read_item(alloc: Global, item: &Value) -> Result<Handler, PlanError>
    ensures { Reads (handler_in (view item.now)) result }
{
    match item.as_table() {
        Some(table) => read_handler(alloc, table),
        None => Err(PlanError::Field {
            name: Key::UpdateHandler,
        }),
    }
}

#[tactic(auto, unfolding(crate::specs::Handlers::handler_of))]
fn read_handler(alloc: Global, table: &Table) -> Result<Handler, PlanError>
    ensures { Reads (handler_of (table_view table.now)) result }
{
    let old = needed_text(alloc, table, "struct", Key::HandlerStruct, TextForm::Name)?;
    let old_form = needed_text(
        alloc,
        table,
        "old_form",
        Key::HandlerOldForm,
        TextForm::Name,
    )?;
    let function = needed_text(
        alloc,
        table,
        "function",
        Key::HandlerFunction,
        TextForm::Name,
    )?;
    if !has_only(table, &["struct", "old_form", "function"]) {
        return Err(PlanError::Field {
            name: Key::HandlerUnknown,
        });
    }
    Ok(Handler {
        old,
        old_form,
        function,
    })
}
