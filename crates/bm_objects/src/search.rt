// The search by address.

ghost use Rattle.std.specs.Prelude.{MatchOption};
ghost use Rattle.bm_objects.specs.Table.{IsTable};
ghost use Rattle.bm_objects.specs.Search.{IsLastUpTo, AllAbove};

use crate::row::Row;

/// The index of the last row that begins at or below the address, by binary search.
pub(crate) fn last_up_to(rows: &[Row], addr: u32) -> Option<usize>
    requires { IsTable rows.now }
    ensures { MatchOption result (AllAbove rows.now addr) (IsLastUpTo rows.now addr) }
{
    let count = rows.partition_point(|row| row.addr <= addr);
    count.checked_sub(1)
}
