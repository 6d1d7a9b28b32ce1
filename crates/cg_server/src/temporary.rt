// Temporaries.

ghost use Rattle.std.specs.Prelude.{◌≡◌, ◌<◌, ◌≤◌, ◌^◌, true, false, Some, None, length, All, OnOk, OnErr, if◌then◌else◌};
ghost use Rattle.lu_base.specs.Addresses.{has_room};
ghost use Rattle.c_types.specs.Layout.{size_of};
ghost use Rattle.bm_objects.specs.Table.{end_of};
ghost use Rattle.bm_code.specs.Calls.{is_running};
ghost use Rattle.bm_code.specs.Services.{is_heap_object};
ghost use Rattle.bm_cpu.specs.State.{with_process};
ghost use Rattle.cg_server.specs.Temporaries.{temporary_row, with_bytes_behind};

use bm_cpu::machine::Machine;
use bm_mem::Bytes;
use bm_objects::{Objects, Row};
use bm_serve::space::address_after;
use c_types::TyId;
use lu_base::Memory;
use lu_base::limits::{ADDRESS_LIMIT, ENTRIES, HEAP_BYTES};
use src_tree::program::Program;

/// Whether so many bytes of the live heap and the next address leave room for an object of that size.
fn has_room(used: u64, next: u64, size: u64) -> bool
    requires { size < 2 ^ 32 }
    ensures { result ≡ has_room used next size }
{
    if used > HEAP_BYTES || next > ADDRESS_LIMIT {
        return false;
    }
    used + size <= HEAP_BYTES && address_after(next, size) <= ADDRESS_LIMIT
}

/// The row of a temporary at the next address, if there is room for it.
pub(crate) fn temporary_row(p: &Program, used: u64, next: u64, elem: TyId) -> Option<Row>
    requires { length p.now.sites ≤ ENTRIES }
    ensures { result ≡ (if has_room used next (size_of p.now.types elem) then Some (temporary_row p.now next elem) else None) }
{
    let size = p.types.size_of(elem);
    if !has_room(used, next, size as u64) {
        return None;
    }
    Some(Row {
        addr: next as u32,
        elem,
        count: 1,
        size,
        site: Some(p.sites.as_slice().len() as u32),
        live: true,
    })
}

/// Whether a live object of the heap begins at the address.
pub(crate) fn is_heap_object(objects: &Objects, addr: u32) -> bool
    ensures { result ≡ is_heap_object objects.now addr }
{
    match objects.find(addr) {
        Some(row) => row.addr == addr && row.live && row.site.is_some(),
        None => false,
    }
}

/// Makes the object of a row behind all others, with these bytes. On `Memory` all is as it was.
pub(crate) fn put_temporary<'a, B: Bytes>(
    machine: &mut Machine<'a, B>,
    row: Row,
    bytes: &[u8],
) -> Result<(), Memory>
    requires idle { is_running machine.old.process.activity ≡ false }
    requires live { row.live ≡ true }
    requires known { row.elem < length machine.old.code.types.types }
    requires some { 0 < row.size }
    requires above { All (λ r. end_of r < row.addr) machine.old.process.rows }
    requires end { end_of row < 2 ^ 32 }
    requires long { length bytes.now ≡ row.size }
    ensures ok { OnOk result (machine.new ≡ with_process machine.old (with_bytes_behind machine.old.process row bytes.now)) }
    ensures err { OnErr result (machine.new ≡ machine.old) }
{
    machine.add(row)?;
    machine.put(row.addr, bytes);
    Ok(())
}
