// Memory in pages.

ghost use Rattle.std.specs.Prelude.{◌≡◌, ℕ, ◌+◌, ◌-◌, ◌<◌, ◌≤◌, ◌^◌, ◌/◌, length, insert, OnOk, OnErr};
ghost use Rattle.bm_mem.specs.Layout.{IsLaidOut, IsCountUpTo};
ghost use Rattle.bm_pages.specs.Directory.{pages_in, IsTaken, IsPartlyTaken};
ghost use Rattle.bm_pages.specs.Extents.{layout_of, IsSound};

use crate::directory::Directory;
use crate::extents::{Extent, count_up_to};
use crate::range::{
    clear_range, copy_range, piece_in_page, release_range, take_range, write_range,
};
use bm_mem::Bytes;
use lu_base::Memory;
use std::alloc::Global;
use std::marker::Model;

/// The number of the page of an object's first byte.
fn first_page(extent: Extent) -> u32
    ensures { result ≡ extent.addr / 4096 }
{
    extent.addr / 4096
}

/// One more than the number of the page of an object's last byte.
fn end_page(extent: Extent) -> u32
    requires some { 0 < extent.size }
    requires end { extent.addr + extent.size < 2 ^ 32 }
    ensures { result ≡ (extent.addr + extent.size - 1) / 4096 + 1 }
{
    (extent.addr + extent.size - 1) / 4096 + 1
}

/// Takes the pages of a new object, and its place in the table. On `Memory` some pages may be new.
fn try_room(
    directory: &mut Directory,
    extents: &mut Vec<Extent>,
    index: usize,
    extent: Extent,
) -> Result<(), Memory>
    requires index { index ≤ length extents.old.items }
    requires some { 0 < extent.size }
    requires end { extent.addr + extent.size < 2 ^ 32 }
    ensures items { OnOk result (extents.new.items ≡ insert extents.old.items index extent) }
    ensures taken { OnOk result (IsTaken (pages_in directory.old) (pages_in directory.new) (extent.addr / 4096) ((extent.addr + extent.size - 1) / 4096 + 1)) }
    ensures same { OnErr result (extents.new.items ≡ extents.old.items) }
    ensures partly { OnErr result (IsPartlyTaken (pages_in directory.old) (pages_in directory.new) (extent.addr / 4096) ((extent.addr + extent.size - 1) / 4096 + 1)) }
{
    take_range(directory, first_page(extent), end_page(extent))?;
    extents.insert(index, extent)?;
    Ok(())
}

/// Takes the pages of a new object, and its place in the table. On `Memory` all is as before.
fn make_room(
    directory: &mut Directory,
    extents: &mut Vec<Extent>,
    index: usize,
    extent: Extent,
) -> Result<(), Memory>
    requires sound { IsSound (pages_in directory.old) extents.old.items }
    requires index { index ≤ length extents.old.items }
    requires some { 0 < extent.size }
    requires end { extent.addr + extent.size < 2 ^ 32 }
    ensures items { OnOk result (extents.new.items ≡ insert extents.old.items index extent) }
    ensures taken { OnOk result (IsTaken (pages_in directory.old) (pages_in directory.new) (extent.addr / 4096) ((extent.addr + extent.size - 1) / 4096 + 1)) }
    ensures same { OnErr result (extents.new.items ≡ extents.old.items) }
    ensures pages { OnErr result ((page : ℕ) → pages_in directory.new page ≡ pages_in directory.old page) }
{
    match try_room(directory, extents, index, extent) {
        Ok(()) => Ok(()),
        Err(memory) => {
            release_range(directory, extents, first_page(extent), end_page(extent));
            Err(memory)
        }
    }
}

/// Memory in pages of 4,096 bytes under a directory of two levels with 1,024 entries each. Small objects share a page; a long
/// one lies in several. A page has memory exactly while an object has a byte in it; the directory's entries, once taken, stay.
#[derive(Drop)]
pub struct PageBytes {
    directory: Directory,
    extents: Vec<Extent>,
}

impl Model for PageBytes {
    ghost use Rattle.std.specs.Prelude.{List, ℕ};
    ghost use Rattle.std.specs.Ordering.{nat_cmp};
    ghost use Rattle.std.specs.FinMap.{FinMap, from_entries, code};
    ghost use Rattle.std.specs.Coded.{coded_ℕ, coded_list};

    ghost Value = { FinMap nat_cmp (List ℕ) };

    ghost coded = { code coded_ℕ (coded_list coded_ℕ) };

    ghost use Rattle.bm_pages.specs.Directory.{pages_in};
    ghost use Rattle.bm_pages.specs.Extents.{entries_in, IsSound};

    ghost view = { λ m. from_entries (entries_in (pages_in m.directory) m.extents.items) };

    ghost invariant = { λ m. IsSound (pages_in m.directory) m.extents.items };
}

impl Bytes for PageBytes {
    ghost content = { λ m. m };

    fn fresh(alloc: Global) -> Self {
        PageBytes {
            directory: Directory::fresh(alloc),
            extents: Vec::new(alloc),
        }
    }

    fn map(&mut self, addr: u32, size: u32) -> Result<(), Memory> {
        let index = count_up_to(&self.extents, addr);
        let extent = Extent { addr, size };
        make_room(&mut self.directory, &mut self.extents, index, extent)?;
        clear_range(&mut self.directory, addr, size);
        Ok(())
    }

    fn unmap(&mut self, addr: u32) {
        let index = count_up_to(&self.extents, addr) - 1;
        let extent = self.extents.remove(index);
        release_range(
            &mut self.directory,
            &self.extents,
            first_page(extent),
            end_page(extent),
        );
    }

    fn read(&self, addr: u32, len: u32) -> &[u8] {
        piece_in_page(&self.directory, addr as usize, len as usize)
    }

    fn copy_out(&self, addr: u32, into: &mut [u8]) {
        copy_range(&self.directory, addr, into);
    }

    fn write(&mut self, addr: u32, piece: &[u8]) {
        write_range(&mut self.directory, addr, piece);
    }
}
