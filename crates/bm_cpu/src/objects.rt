// Objects that the machine is given, and those of the globals.

ghost use Rattle.std.specs.Prelude.{◌≡◌, ◌+◌, ◌*◌, ◌<◌, ◌≤◌, ◌^◌, ◌++◌, [], ◌∷◌, true, length, replicate, All, OnOk, OnErr};
ghost use Rattle.std.specs.FinMap.{insert};
ghost use Rattle.bm_objects.specs.Table.{IsTable, end_of, next_address};
ghost use Rattle.lu_base.specs.Addresses.{address_after};
ghost use Rattle.bm_code.specs.Services.{heap_part_of, heap_bytes};
ghost use Rattle.bm_serve.specs.Space.{IsSpace};
ghost use Rattle.bm_code.specs.Accepted.{IsAccepted, IsAcceptedGlobal, global_bytes};
ghost use Rattle.bm_code.specs.Globals.{elements_of, global_row, no_objects, with_global, with_globals};

use bm_code::code::{MachineCode, MachineGlobal};
use bm_mem::Bytes;
use bm_objects::{Objects, Row};
use bm_serve::space::{Space, address_after};
use c_types::{Ty, TyId};
use lu_base::Memory;
use lu_base::limits::FIRST_ADDRESS;

/// The bytes of the heap that an object has.
fn heap_part(row: Row) -> u32
    ensures { result ≡ heap_part_of row }
{
    if row.live && row.site.is_some() {
        row.size
    } else {
        0
    }
}

/// Makes the zero object of a live row above all others, and puts the row last. On `Memory` all is as it was.
pub(crate) fn put_object<B: Bytes>(
    code: &MachineCode,
    space: &mut Space<B>,
    row: Row,
) -> Result<(), Memory>
    requires space { IsSpace code.now.types (B.content space.old.memory) space.old.objects space.old.next space.old.used }
    requires live { row.live ≡ true }
    requires known { row.elem < length code.now.types.types }
    requires some { 0 < row.size }
    requires above { All (λ r. end_of r < row.addr) space.old.objects }
    requires end { end_of row < 2 ^ 32 }
    ensures space { IsSpace code.now.types (B.content space.new.memory) space.new.objects space.new.next space.new.used }
    ensures memory { OnOk result (B.content space.new.memory ≡ insert (B.content space.old.memory) row.addr (replicate row.size 0)) }
    ensures objects { OnOk result (space.new.objects ≡ space.old.objects ++ row ∷ []) }
    ensures next { OnOk result (space.new.next ≡ address_after row.addr row.size) }
    ensures kept { OnErr result ((B.content space.new.memory ≡ B.content space.old.memory) × (space.new.objects ≡ space.old.objects) × (space.new.next ≡ space.old.next)) }
{
    let _code = code;
    let Ok(()) = space.memory.map(row.addr, row.size) else {
        return Err(Memory);
    };
    let Ok(()) = space.objects.add(row) else {
        space.memory.unmap(row.addr);
        return Err(Memory);
    };
    let _count = space.objects.len();
    space.next = address_after(row.addr as u64, row.size as u64);
    space.used += heap_part(row) as u64;
    Ok(())
}

/// The type of an object's elements, and how many there are.
fn elements_of(code: &MachineCode, ty: TyId) -> (TyId, u32)
    requires { ty < length code.now.types.types }
    ensures is { result ≡ elements_of code.now.types ty }
    ensures known { result.0 < length code.now.types.types }
{
    match code.types.parts().find_type(ty) {
        Some(Ty::Array(elem, count)) => (elem, count),
        _ => (ty, 1),
    }
}

/// The row of a global at an address.
fn global_row(code: &MachineCode, address: u64, global: &MachineGlobal) -> Row
    requires known { global.now.ty < length code.now.types.types }
    requires address { address < 2 ^ 32 }
    ensures is { result ≡ global_row code.now.types address global.now }
    ensures known { result.elem < length code.now.types.types }
    ensures some { 0 < result.size }
{
    let _parts = code.types.parts();
    let (elem, count) = elements_of(code, global.ty);
    Row {
        addr: address as u32,
        elem,
        count,
        size: code.types.size_of(global.ty),
        site: None,
        live: true,
    }
}

/// Makes the object of a global with its initial bytes, at the next address.
fn put_global<B: Bytes>(
    code: &MachineCode,
    space: &mut Space<B>,
    global: &MachineGlobal,
) -> Result<(), Memory>
    requires global { IsAcceptedGlobal code.now global.now }
    requires space { IsSpace code.now.types (B.content space.old.memory) space.old.objects space.old.next space.old.used }
    requires end { space.old.next + length global.now.bytes < 2 ^ 32 }
    ensures space { IsSpace code.now.types (B.content space.new.memory) space.new.objects space.new.next space.new.used }
    ensures placed { OnOk result (record { content = B.content space.new.memory; rows = space.new.objects; next = space.new.next } ≡ with_global code.now.types (record { content = B.content space.old.memory; rows = space.old.objects; next = space.old.next }) global.now) }
    ensures next { OnOk result (space.new.next ≤ space.old.next + length global.now.bytes + 31) }
{
    let row = global_row(code, space.next, global);
    put_object(code, space, row)?;
    space.memory.write(row.addr, global.bytes.as_slice());
    Ok(())
}

/// Makes the objects of the globals.
pub(crate) fn put_globals<B: Bytes>(code: &MachineCode, space: &mut Space<B>) -> Result<(), Memory>
    requires accepted { IsAccepted code.now }
    requires space { IsSpace code.now.types (B.content space.old.memory) space.old.objects space.old.next space.old.used }
    requires fresh { record { content = B.content space.old.memory; rows = space.old.objects; next = space.old.next } ≡ no_objects }
    ensures space { IsSpace code.now.types (B.content space.new.memory) space.new.objects space.new.next space.new.used }
    ensures placed { OnOk result (record { content = B.content space.new.memory; rows = space.new.objects; next = space.new.next } ≡ with_globals code.now.types no_objects code.now.globals) }
{
    for global in code.globals.as_slice() {
        put_global(code, space, global)?;
    }
    Ok(())
}

/// The address of the object after these.
pub(crate) fn next_address(objects: &Objects) -> u64
    ensures is { result ≡ next_address objects.now }
    ensures table { IsTable objects.now }
{
    let count = objects.len();
    if count == 0 {
        FIRST_ADDRESS
    } else {
        let last = objects.row(count - 1);
        address_after(last.addr as u64, last.size as u64)
    }
}

/// How many bytes the live objects of the heap have.
pub(crate) fn heap_bytes(objects: &Objects) -> u64
    ensures { result ≡ heap_bytes objects.now }
{
    let count = objects.len();
    let mut sum = 0;
    for index in 0..count {
        sum += heap_part(objects.row(index)) as u64;
    }
    sum
}
