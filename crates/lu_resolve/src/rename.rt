// The renames of an update.

ghost use Rattle.std.specs.Prelude.{◌≡◌, map, IfOk, IsTrue};
ghost use Rattle.std.specs.List.{list_all};
ghost use Rattle.plan_file.specs.Kept.{keeps_rename};
ghost use Rattle.plan_file.specs.Renames.{are_in_order};
ghost use Rattle.lu_resolve.specs.Renames.{table_of, rename_of, renames_of};

use lu_base::{Memory, Name};
use lu_image::{Rename, Renames, Table};
use std::alloc::Global;

/// The table of a plan's word.
fn table_of(word: &Name) -> Table
    ensures { result ≡ table_of word.now }
{
    match word.as_str() {
        "global" => Table::Global,
        "struct" => Table::Struct,
        "field" => Table::Field,
        "union" => Table::Union,
        "member" => Table::Member,
        "function" => Table::Function,
        _ => Table::Site,
    }
}

fn rename_of(alloc: Global, planned: &plan_file::Rename) -> Result<Rename, Memory>
    ensures { IfOk result (λ rename. rename ≡ rename_of planned.now) }
{
    Ok(Rename {
        table: table_of(&planned.table),
        old: planned.old.copy(alloc)?,
        new: planned.new.copy(alloc)?,
    })
}

fn all_renames(alloc: Global, planned: &[plan_file::Rename]) -> Result<Vec<Rename>, Memory>
    ensures { IfOk result (λ renames. renames.items ≡ map rename_of planned.now) }
{
    let mut renames = Vec::new(alloc);
    for rename in planned {
        renames.push(rename_of(alloc, rename)?)?;
    }
    Ok(renames)
}

/// The renames of a plan, none of which has a table's old name twice.
pub fn renames_of(alloc: Global, planned: &[plan_file::Rename]) -> Result<Renames, Memory>
    requires forms { IsTrue (list_all keeps_rename planned.now) }
    requires order { IsTrue (are_in_order planned.now) }
    ensures { IfOk result (λ renames. renames ≡ renames_of planned.now) }
{
    let renames = all_renames(alloc, planned)?;
    match Renames::new(alloc, renames)? {
        Some(renames) => Ok(renames),
        None => unreachable!(),
    }
}
