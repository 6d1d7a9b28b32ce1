// The names that renames see: an entry that pairs with itself has none.

ghost use Rattle.std.specs.Prelude.{◌≡◌, map, IfOk};
ghost use Rattle.lu_image.specs.RenameRefusal.{is_fixed, open_name};

use crate::names::NameList;
use lu_base::{Memory, Name};
use lu_image::Table;
use std::alloc::Global;

/// Whether a name is that of a global or a struct that pairs with itself.
fn is_fixed(table: Table, name: &Name) -> bool
    ensures { result ≡ is_fixed table name.now }
{
    match table {
        Table::Global => name.as_str() == "m_in" || name.as_str() == "m_out",
        Table::Struct => name.as_str() == "message",
        _ => false,
    }
}

/// A name as renames see it.
pub fn open_name(alloc: Global, table: Table, name: &Option<Name>) -> Result<Option<Name>, Memory>
    ensures { IfOk result (λ seen. seen ≡ open_name table name.now) }
{
    match name {
        None => Ok(None),
        Some(name) => {
            if is_fixed(table, name) {
                Ok(None)
            } else {
                Ok(Some(name.copy(alloc)?))
            }
        }
    }
}

fn all_open_names(
    alloc: Global,
    table: Table,
    names: &[Option<Name>],
) -> Result<Vec<Option<Name>>, Memory>
    ensures { IfOk result (λ all. all.items ≡ map (open_name table) names.now) }
{
    let mut all = Vec::new(alloc);
    for name in names {
        all.push(open_name(alloc, table, name)?)?;
    }
    Ok(all)
}

/// Names as renames see them.
pub fn open_names(alloc: Global, table: Table, names: &[Option<Name>]) -> Result<NameList, Memory>
    ensures { IfOk result (λ list. list ≡ map (open_name table) names.now) }
{
    NameList::new(alloc, all_open_names(alloc, table, names)?)
}
