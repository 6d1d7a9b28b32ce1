// How an update goes.
ghost use Rattle.std.specs.Prelude.{◌≡◌, ◌++◌, [], false, Ok, Some, None, MatchResult, codes};
ghost use Rattle.toml.specs.Data.{as_bool, get_member};
ghost use Rattle.toml.specs.View.{view, table_view, items_view};
ghost use Rattle.plan_file.specs.declared.key.Key.TheVariants as key;
ghost use Rattle.plan_file.specs.declared.plan.Dangling.TheVariants as dangling;
ghost use Rattle.plan_file.specs.Forms.{dangling_of, is_filter, text_where};
ghost use Rattle.plan_file.specs.Lookup.{Reads, IsRefusal, each_onto, optional, defaulted};
ghost use Rattle.plan_file.specs.Updates.{settings_of, hold_of, hold_in, hold_at};

use crate::form::{TextForm, dangling, int};
use crate::lookup::{copied, find, number_or, or_field, text};
use crate::{Dangling, Key, PlanError, Sequence};
use lu_base::Name;
use std::alloc::Global;
use toml::{Table, Value};

// The settings of an update.
#[derive(Debug, Drop)]
pub struct Settings {
    pub filter: Name,
    pub hold: Sequence<i32>,
    pub tries: u32,
    pub dangling: Dangling,
    pub gated: bool,
    pub after: Option<Name>,
}

#[tactic(auto, unfolding(crate::specs::Updates::settings_of))]
pub fn read_settings(alloc: Global, table: &Table) -> Result<Settings, PlanError>
    ensures { Reads (settings_of (table_view table.now)) result }
{
    let filter = read_filter(alloc, table)?;
    let hold = read_hold(alloc, table)?;
    let tries = number_or(table, "tries", Key::UpdateTries, 1, 1000, 16)?;
    let dangling = read_dangling(table)?;
    let gated = read_gated(table)?;
    let after = text(alloc, table, "after", Key::UpdateAfter, TextForm::Name)?;
    Ok(Settings {
        filter,
        hold,
        tries,
        dangling,
        gated,
        after,
    })
}

fn read_filter(alloc: Global, table: &Table) -> Result<Name, PlanError>
    ensures { Reads (defaulted (table_view table.now) (codes "filter") key.UpdateFilter (text_where is_filter) (codes "1")) result }
{
    match text(alloc, table, "filter", Key::UpdateFilter, TextForm::Filter)? {
        Some(filter) => Ok(filter),
        None => copied(alloc, "1"),
    }
}

fn read_hold(alloc: Global, table: &Table) -> Result<Sequence<i32>, PlanError>
    ensures { Reads (hold_of (get_member (codes "hold") (table_view table.now))) result }
{
    match find(table, "hold") {
        None => Ok(Sequence::from_vec(Vec::new(alloc))),
        Some(value) => read_hold_list(alloc, value),
    }
}

#[tactic(auto, using(crate::proofs::Items::items))]
fn read_hold_list(alloc: Global, value: &Value) -> Result<Sequence<i32>, PlanError>
    ensures { Reads (hold_in (view value.now)) result }
{
    match value.as_array() {
        Some(items) if items.len() <= 64 => Ok(Sequence::from_vec(read_ints(alloc, items)?)),
        _ => Err(PlanError::Field {
            name: Key::UpdateHold,
        }),
    }
}

fn read_ints(alloc: Global, items: &[Value]) -> Result<Vec<i32>, PlanError>
    ensures { MatchResult result (λ ints. each_onto hold_at [] (items_view items.now) ≡ Ok ints.items)
        (IsRefusal (each_onto hold_at [] (items_view items.now))) }
{
    let mut ints = Vec::new(alloc);
    let mut rest = items;
    while let [item, after @ ..] = rest {
        let number = or_field(Key::UpdateHold, int(item))?;
        ints.push(number)?;
        rest = after;
    }
    Ok(ints)
}

fn read_dangling(table: &Table) -> Result<Dangling, PlanError>
    ensures { result ≡ defaulted (table_view table.now) (codes "dangling") key.UpdateDangling dangling_of dangling.Refuse }
{
    match find(table, "dangling") {
        None => Ok(Dangling::Refuse),
        Some(value) => match dangling(value) {
            Some(dangling) => Ok(dangling),
            None => Err(PlanError::Field {
                name: Key::UpdateDangling,
            }),
        },
    }
}

fn read_gated(table: &Table) -> Result<bool, PlanError>
    ensures { result ≡ defaulted (table_view table.now) (codes "gated") key.UpdateGated as_bool false }
{
    match find(table, "gated") {
        None => Ok(false),
        Some(value) => match value.as_bool() {
            Some(gated) => Ok(gated),
            None => Err(PlanError::Field {
                name: Key::UpdateGated,
            }),
        },
    }
}
