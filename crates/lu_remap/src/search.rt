// The search by address among old rows.

ghost use Rattle.std.specs.Prelude.{◌≡◌, true, IfSome, MatchOption, Some, slice_get};
ghost use Rattle.std.specs.Option.{option_map};
ghost use Rattle.std.specs.List.{position_from};
ghost use Rattle.bm_objects.specs.Table.{IsTable, reaches};
ghost use Rattle.bm_objects.specs.Search.{IsLastUpTo, AllAbove};
ghost use Rattle.lu_remap.specs.Rows.{AllCanBeAsked, address_image};
ghost use Rattle.lu_remap.specs.Descent.{aim_of};

use crate::descent::Descent;
use crate::rows::{RemapFault, Target, row_image};
use bm_objects::Row;

/// The index of the last row that begins at or below the address, by binary search.
fn last_up_to(rows: &[Row], addr: u32) -> Option<usize>
    requires { IsTable rows.now }
    ensures { MatchOption result (AllAbove rows.now addr) (IsLastUpTo rows.now addr) }
{
    let count = rows.partition_point(|row| row.addr <= addr);
    count.checked_sub(1)
}

/// An old row with its number.
#[derive(Clone, Copy)]
struct Found {
    number: u32,
    row: Row,
}

/// The row that has the address among its bytes or as its end.
fn row_at(rows: &[Row], addr: u32) -> Option<Found>
    requires { IsTable rows.now }
    ensures number { option_map (λ f. f.number) result ≡ position_from (reaches addr) 0 rows.now }
    ensures row { IfSome result (λ f. slice_get rows.now f.number ≡ Some f.row) }
    ensures reached { IfSome result (λ f. reaches addr f.row ≡ true) }
{
    let index = last_up_to(rows, addr)?;
    let row = rows[index];
    if addr <= row.addr + row.size {
        Some(Found {
            number: index as u32,
            row,
        })
    } else {
        None
    }
}

/// The image of a pointer by its address among the old rows, whose indices are the numbers of the objects; none where no row
/// has the address among its bytes or as its end.
pub fn address_image(
    descent: &Descent<'_>,
    rows: &[Row],
    addr: u32,
) -> Option<Result<Target, RemapFault>>
    requires table { IsTable rows.now }
    requires asked { AllCanBeAsked descent.now.pairing.now rows.now addr }
    ensures { result ≡ address_image descent.now.pairing.now (aim_of descent.now.aim) rows.now addr }
{
    let found = row_at(rows, addr)?;
    let offset = addr - found.row.addr;
    Some(row_image(descent, found.number, found.row, offset))
}
