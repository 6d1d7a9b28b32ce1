// The objects of a process and their memory.

ghost use Rattle.std.specs.Prelude.{◌≡◌, ◌+◌, ◌<◌, ◌≤◌, ◌^◌, [], ◌∷◌, ◌++◌, ℕ, List, true, false, length, replicate, All, Any, IsSome, None, IfSome, MatchOption, MatchResult, OnOk, OnErr};
ghost use Rattle.std.specs.FinMap.{get, insert, remove};
ghost use Rattle.lu_base.specs.Addresses.{address_after};
ghost use Rattle.lu_base.specs.declared.limits.TheConstants.{FIRST_ADDRESS, HEAP_BYTES};
ghost use Rattle.c_types.specs.declared.parts.Parts.{Parts};
ghost use Rattle.c_types.specs.Layout.{size_of};
ghost use Rattle.bm_mem.specs.Content.{IsClear};
ghost use Rattle.bm_objects.specs.declared.row.Row.{Row as RowValue};
ghost use Rattle.bm_objects.specs.Table.{end_of, killed};
ghost use Rattle.bm_code.specs.Services.{heap_bytes, new_row, can_allocate, is_heap_object};
ghost use Rattle.bm_serve.specs.Space.{IsSpace, IsAllocated, IsRefused, IsFreed};

use bm_code::code::MachineCode;
use bm_frame::pointer::find_row;
use bm_mem::Bytes;
use bm_objects::{Objects, Row};
use lu_base::Memory;
use lu_base::limits::{ADDRESS_LIMIT, FIRST_ADDRESS, GAP, HEAP_BYTES};
use std::alloc::Global;

/// The objects of a process and their memory.
#[derive(Drop)]
pub struct Space<B: Bytes> {
    pub memory: B,
    pub objects: Objects,
    /// The address of the next object.
    pub next: u64,
    /// How many bytes the live objects of the heap have.
    pub used: u64,
}

impl<B: Bytes> Space<B> {
    /// No objects.
    pub fn fresh(alloc: Global) -> Self
        ensures space { (types : Parts) → IsSpace types (B.content result.memory) result.objects result.next result.used }
        ensures objects { result.objects ≡ [] }
        ensures next { result.next ≡ FIRST_ADDRESS }
    {
        Space {
            memory: B::fresh(alloc),
            objects: Objects::fresh(alloc),
            next: FIRST_ADDRESS,
            used: 0,
        }
    }
}

/// The address of the object behind one.
pub fn address_after(address: u64, size: u64) -> u64
    requires { address + size < 2 ^ 63 }
    ensures { result ≡ address_after address size }
{
    (address + size + GAP + 15) / 16 * 16
}

/// The row of so many new elements at the next address, if there may be such an object.
fn plan_object(
    code: &MachineCode,
    next: u64,
    used: u64,
    site: u32,
    elem: u32,
    count: u64,
) -> Option<Row>
    requires known { elem < length code.now.types.types }
    requires next { next < 2 ^ 60 }
    requires used { used < 2 ^ 60 }
    ensures row { (rows : List RowValue) → used ≡ heap_bytes rows → MatchOption result (can_allocate rows (new_row code.now next site elem count) ≡ false) (λ r. (r ≡ new_row code.now next site elem count) × (can_allocate rows (new_row code.now next site elem count) ≡ true)) }
    ensures some { IfSome result (λ r. 0 < r.size) }
    ensures end { IfSome result (λ r. r.addr + r.size + 31 < 2 ^ 32) }
    ensures used { IfSome result (λ r. used + r.size ≤ HEAP_BYTES) }
{
    let size = size_of(code, elem) as u64;
    let bytes = count.checked_mul(size)?;
    if count == 0 || bytes > HEAP_BYTES || used + bytes > HEAP_BYTES {
        return None;
    }
    if next > ADDRESS_LIMIT {
        return None;
    }
    if address_after(next, bytes) > ADDRESS_LIMIT {
        return None;
    }
    Some(Row {
        addr: next as u32,
        elem,
        count: count as u32,
        size: bytes as u32,
        site: Some(site),
        live: true,
    })
}

/// The bytes of a type of the program.
fn size_of(code: &MachineCode, elem: u32) -> u32
    requires { elem < length code.now.types.types }
    ensures is { result ≡ size_of code.now.types elem }
    ensures some { 0 < result }
{
    let _parts = code.types.parts();
    code.types.size_of(elem)
}

/// Makes the object of a row, and puts the row last. On `Memory` all is as it was.
fn put_object<B: Bytes>(space: &mut Space<B>, row: Row) -> Result<(), Memory>
    requires place { row.addr ≡ space.old.next }
    requires some { 0 < row.size }
    requires end { row.addr + row.size + 31 < 2 ^ 32 }
    requires used { space.old.used < 2 ^ 60 }
    requires clear { IsClear (B.content space.old.memory) row.addr row.size }
    requires above { All (λ r. end_of r < row.addr) space.old.objects }
    requires fresh { get (B.content space.old.memory) row.addr ≡ None }
    ensures memory { OnOk result (B.content space.new.memory ≡ insert (B.content space.old.memory) row.addr (replicate row.size 0)) }
    ensures objects { OnOk result (space.new.objects ≡ space.old.objects ++ row ∷ []) }
    ensures next { OnOk result (space.new.next ≡ address_after row.addr row.size) }
    ensures used { OnOk result (space.new.used ≡ space.old.used + row.size) }
    ensures kept { OnErr result ((B.content space.new.memory ≡ B.content space.old.memory) × (space.new.objects ≡ space.old.objects) × (space.new.next ≡ space.old.next) × (space.new.used ≡ space.old.used)) }
{
    let Ok(()) = space.memory.map(row.addr, row.size) else {
        return Err(Memory);
    };
    let Ok(()) = space.objects.add(row) else {
        space.memory.unmap(row.addr);
        return Err(Memory);
    };
    space.next = address_after(row.addr as u64, row.size as u64);
    space.used += row.size as u64;
    Ok(())
}

/// Makes so many new elements of a site's type, and gives their address; gives 0 where the count is 0, or where the live
/// heap or the next address would pass its limit. On `Memory` all is as it was.
pub fn allocate<B: Bytes>(
    code: &MachineCode,
    space: &mut Space<B>,
    site: u32,
    elem: u32,
    count: u64,
) -> Result<u64, Memory>
    requires known { elem < length code.now.types.types }
    requires space { IsSpace code.now.types (B.content space.old.memory) space.old.objects space.old.next space.old.used }
    ensures space { IsSpace code.now.types (B.content space.new.memory) space.new.objects space.new.next space.new.used }
    ensures made { MatchResult result (λ a. IsAllocated (new_row code.now space.old.next site elem count) (B.content space.old.memory) space.old.objects space.old.next a (B.content space.new.memory) space.new.objects space.new.next) (λ _. IsRefused (new_row code.now space.old.next site elem count) (B.content space.old.memory) space.old.objects space.old.next (B.content space.new.memory) space.new.objects space.new.next) }
{
    let Some(row) = plan_object(code, space.next, space.used, site, elem, count) else {
        return Ok(0);
    };
    put_object(space, row)?;
    Ok(row.addr as u64)
}

/// Frees the live object of the heap that begins at an address; whether there is one.
pub fn free<B: Bytes>(code: &MachineCode, space: &mut Space<B>, address: u64) -> bool
    requires { IsSpace code.now.types (B.content space.old.memory) space.old.objects space.old.next space.old.used }
    ensures space { IsSpace code.now.types (B.content space.new.memory) space.new.objects space.new.next space.new.used }
    ensures is { result ≡ is_heap_object space.old.objects address }
    ensures freed { IsFreed result address (B.content space.old.memory) space.old.objects (B.content space.new.memory) space.new.objects }
    ensures next { space.new.next ≡ space.old.next }
{
    let _code = code;
    let _count = space.objects.len();
    let Some(row) = find_row(&space.objects, address) else {
        return false;
    };
    if row.addr as u64 != address || !row.live || row.site.is_none() {
        return false;
    }
    take_object(space, row);
    true
}

/// Takes the object of a row away.
fn take_object<B: Bytes>(space: &mut Space<B>, row: Row)
    requires begins { Any (λ r. r.addr ≡ row.addr) space.old.objects }
    requires mapped { IsSome (get (B.content space.old.memory) row.addr) }
    requires used { row.size ≤ space.old.used }
    ensures memory { B.content space.new.memory ≡ remove (B.content space.old.memory) row.addr }
    ensures objects { space.new.objects ≡ killed space.old.objects row.addr }
    ensures next { space.new.next ≡ space.old.next }
    ensures used { space.new.used + row.size ≡ space.old.used }
{
    space.objects.kill(row.addr);
    space.memory.unmap(row.addr);
    space.used -= row.size as u64;
}
