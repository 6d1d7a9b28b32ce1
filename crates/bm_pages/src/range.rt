// Ranges of addresses and of pages.

ghost use Rattle.std.specs.Prelude.{◌≡◌, ◌+◌, ◌-◌, ◌*◌, ◌<◌, ◌≤◌, ◌/◌, ◌%◌, ◌^◌, length, min, replicate, OnOk, OnErr};
ghost use Rattle.bm_mem.specs.Layout.{IsLaidOut};
ghost use Rattle.bm_pages.specs.Pages.{IsThere, IsBacked, IsOverwritten, bytes_from};
ghost use Rattle.bm_pages.specs.Directory.{pages_in, IsTaken, IsPartlyTaken};
ghost use Rattle.bm_pages.specs.Extents.{layout_of, IsReleased};

use crate::directory::Directory;
use crate::extents::{Extent, is_used};
use crate::page::{PAGE_BYTES, overwrite};
use lu_base::Memory;

/// How many of so many bytes from an address on lie in the page of the first.
fn count_in_page(addr: usize, left: usize) -> usize
    ensures { result ≡ min (4096 - addr % 4096) left }
{
    (PAGE_BYTES - addr % PAGE_BYTES).min(left)
}

/// The bytes of a range that lies in one page.
pub fn piece_in_page(directory: &Directory, addr: usize, count: usize) -> &[u8]
    requires there { IsThere (pages_in directory.now) (addr / 4096) }
    requires inside { addr % 4096 + count ≤ 4096 }
    ensures { result.now ≡ bytes_from (pages_in directory.now) addr count }
{
    let start = addr % PAGE_BYTES;
    &directory.page(addr / PAGE_BYTES)[start..start + count]
}

/// Copies the bytes from an address on, as many as `into` has.
pub fn copy_range(directory: &Directory, addr: u32, into: &mut [u8])
    requires { IsBacked (pages_in directory.now) addr (length into.old) }
    ensures { into.new ≡ bytes_from (pages_in directory.now) addr (length into.old) }
{
    let mut done = 0;
    while done < into.len() {
        let at = addr as usize + done;
        let count = count_in_page(at, into.len() - done);
        overwrite(into, done, piece_in_page(directory, at, count));
        done += count;
    }
}

/// Puts a piece in place of the bytes from an address on.
pub fn write_range(directory: &mut Directory, addr: u32, piece: &[u8])
    requires { IsBacked (pages_in directory.old) addr (length piece.now) }
    ensures { IsOverwritten (pages_in directory.old) (pages_in directory.new) addr piece.now }
{
    let mut done = 0;
    while done < piece.len() {
        let at = addr as usize + done;
        let count = count_in_page(at, piece.len() - done);
        directory.write(at / PAGE_BYTES, at % PAGE_BYTES, &piece[done..done + count]);
        done += count;
    }
}

/// Makes so many bytes from an address on zero.
pub fn clear_range(directory: &mut Directory, addr: u32, size: u32)
    requires { IsBacked (pages_in directory.old) addr size }
    ensures { IsOverwritten (pages_in directory.old) (pages_in directory.new) addr (replicate size 0) }
{
    let size = size as usize;
    let mut done = 0;
    while done < size {
        let at = addr as usize + done;
        let count = count_in_page(at, size - done);
        directory.clear(at / PAGE_BYTES, at % PAGE_BYTES, count);
        done += count;
    }
}

/// Takes memory for each page from `first` on below `end` that has none.
pub fn take_range(directory: &mut Directory, first: u32, end: u32) -> Result<(), Memory>
    requires order { first ≤ end }
    requires in_memory { end ≤ 2 ^ 20 }
    ensures ok { OnOk result (IsTaken (pages_in directory.old) (pages_in directory.new) first end) }
    ensures err { OnErr result (IsPartlyTaken (pages_in directory.old) (pages_in directory.new) first end) }
{
    for number in first..end {
        directory.take(number as usize)?;
    }
    Ok(())
}

/// Gives a page up if no object has a byte in it.
fn release_page(directory: &mut Directory, extents: &[Extent], number: u32)
    requires laid_out { IsLaidOut (layout_of extents.now) }
    requires in_memory { number < 2 ^ 20 }
    ensures { IsReleased extents.now (pages_in directory.old) (pages_in directory.new) number (number + 1) }
{
    if directory.has_page(number as usize) && !is_used(extents, number) {
        directory.give_up(number as usize);
    }
}

/// Gives up each page from `first` on below `end` in which no object has a byte.
pub fn release_range(directory: &mut Directory, extents: &[Extent], first: u32, end: u32)
    requires laid_out { IsLaidOut (layout_of extents.now) }
    requires order { first ≤ end }
    requires in_memory { end ≤ 2 ^ 20 }
    ensures { IsReleased extents.now (pages_in directory.old) (pages_in directory.new) first end }
{
    for number in first..end {
        release_page(directory, extents, number);
    }
}
