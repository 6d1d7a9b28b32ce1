// Where objects lie, in address order.

ghost use Rattle.std.specs.Prelude.{◌≡◌, ◌+◌, ◌*◌, ◌<◌, ◌≤◌, ◌^◌, ◌↔◌, length, Any, IsTrue};
ghost use Rattle.bm_mem.specs.Layout.{IsLaidOut, IsCountUpTo, IsPlaceOf};
ghost use Rattle.bm_pages.specs.Extents.{layout_of, IsUsed};

/// An object: the address of its first byte, and how many bytes it has.
#[derive(Clone, Copy, Drop)]
pub struct Extent {
    pub addr: u32,
    pub size: u32,
}

/// How many objects begin at or below the address, by binary search.
pub fn count_up_to(extents: &[Extent], addr: u32) -> usize
    requires { IsLaidOut (layout_of extents.now) }
    ensures { IsCountUpTo (layout_of extents.now) addr result }
{
    extents.partition_point(|extent| extent.addr <= addr)
}

/// Whether an object has a byte in a page.
pub fn is_used(extents: &[Extent], page: u32) -> bool
    requires laid_out { IsLaidOut (layout_of extents.now) }
    requires in_memory { page < 2 ^ 20 }
    ensures { IsTrue result ↔ IsUsed extents.now page }
{
    let first = page * 4096;
    let count = count_up_to(extents, first + 4095);
    count > 0 && extents[count - 1].addr as u64 + extents[count - 1].size as u64 > first as u64
}
