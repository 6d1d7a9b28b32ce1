// Rows by address.

ghost use Rattle.std.specs.Prelude.{◌≡◌, ◌^◌, ◌<◌, ◌≤◌, length, All, IfOk, IfSome, slice_get};
ghost use Rattle.lu_image_store.specs.Versions.{paired_global};
ghost use Rattle.lu_scan.specs.Given.{versions};
ghost use Rattle.lu_walk.specs.Rows.{row_at, is_row, is_live_heap_row, target_of, targets_of, is_root_row, root_rows, IsCountUpTo};

use bm_objects::Objects;
use lu_base::Memory;
use lu_scan::PairedPrograms;
use std::alloc::Global;

/// How many rows begin at or below an address, by binary search.
fn count_up_to(rows: &Objects, addr: u32) -> usize
    ensures { IsCountUpTo rows.now addr result }
{
    let mut low = 0;
    let mut high = rows.len();
    while low < high {
        let middle = low + (high - low) / 2;
        if rows.row(middle).addr <= addr {
            low = middle + 1;
        } else {
            high = middle;
        }
    }
    low
}

/// The number of the row that has an address among its bytes or as its end.
pub(crate) fn row_at(rows: &Objects, addr: u32) -> Option<usize>
    ensures value { result ≡ row_at addr rows.now }
    ensures inside { IfSome result (λ i. i < length rows.now) }
{
    let count = count_up_to(rows, addr);
    let _rows = rows.len();
    if count == 0 {
        return None;
    }
    let row = rows.row(count - 1);
    if addr <= row.addr + row.size {
        Some(count - 1)
    } else {
        None
    }
}

/// The live object of the heap to which a word goes.
fn target_of(rows: &Objects, word: u32) -> Option<u32>
    requires { length rows.now < 2 ^ 32 }
    ensures value { result ≡ target_of rows.now word }
    ensures inside { IfSome result (λ i. i < length rows.now) }
{
    let number = row_at(rows, word)?;
    let row = rows.row(number);
    if row.live && row.site.is_some() {
        Some(number as u32)
    } else {
        None
    }
}

/// The live objects of the heap to which words go, in order.
pub(crate) fn targets_of(alloc: Global, rows: &Objects, words: &[u32]) -> Result<Vec<u32>, Memory>
    requires { length rows.now < 2 ^ 32 }
    ensures value { IfOk result (λ targets. targets.items ≡ targets_of rows.now words.now) }
    ensures inside { IfOk result (λ targets. All (λ i. i < length rows.now) targets.items) }
{
    let mut targets = Vec::new(alloc);
    for word in words {
        if let Some(target) = target_of(rows, *word) {
            targets.push(target)?;
        }
    }
    Ok(targets)
}

/// Whether a row is that of a global that has a pair.
fn is_root(programs: &PairedPrograms, rows: &Objects, number: usize) -> bool
    requires { number < length rows.now }
    ensures { result ≡ is_root_row (versions programs.now) rows.now number }
{
    rows.row(number).site.is_none() && programs.paired_global(number).is_some()
}

/// The rows of the globals that have a pair.
pub(crate) fn roots(
    alloc: Global,
    programs: &PairedPrograms,
    rows: &Objects,
    count: u32,
) -> Result<Vec<u32>, Memory>
    requires { count ≡ length rows.now }
    ensures value { IfOk result (λ roots.
        roots.items ≡ root_rows (versions programs.now) rows.now) }
    ensures inside { IfOk result (λ roots. All (λ k. k < count) roots.items) }
{
    let mut found = Vec::new(alloc);
    for number in 0..count {
        if is_root(programs, rows, number as usize) {
            found.push(number)?;
        }
    }
    Ok(found)
}
