// The machine's globals: the objects of the initial store, as bytes.

ghost use Rattle.std.specs.Prelude.{◌≡◌, map, IfOk};
ghost use Rattle.lu_base.specs.Addresses.{address_after};
ghost use Rattle.src_meaning.specs.Objects.{object_size, addresses};
ghost use Rattle.src_meaning.specs.Initial.{initial_store};
ghost use Rattle.cg_program.specs.Compiled.{machine_global};
ghost use Rattle.cg_program.specs.Parts.{live_bytes};

use crate::bytes::{Layout, put_items};
use bm_code::code::MachineGlobal;
use c_types::{Sequence, TypeTable};
use lu_base::limits::{FIRST_ADDRESS, GAP};
use lu_base::{Bytes8, Memory};
use src_tree::program::Program;
use src_tree::value::{Object, Store};
use std::alloc::Global;

/// The bytes of an object; `Memory` where they are 2^32 or more, since no object is so large.
fn object_size(types: &TypeTable, object: &Object) -> Result<u32, Memory>
    ensures { IfOk result (λ n. n ≡ object_size types.now object.now) }
{
    let size = types.size_of(object.elem);
    object.count.checked_mul(size).ok_or(Memory)
}

/// The address of the object after one; `Memory` where it is 2^32 or more, since no object stands there.
fn address_after(address: u32, size: u32) -> Result<u32, Memory>
    ensures { IfOk result (λ next. next ≡ address_after address size) }
{
    let next = (address as u64 + size as u64 + GAP + 15) / 16 * 16;
    match u32::try_from(next) {
        Ok(next) => Ok(next),
        Err(_) => Err(Memory),
    }
}

/// The address of each object of a store.
pub fn addresses(alloc: Global, types: &TypeTable, store: &Store) -> Result<Vec<u32>, Memory>
    ensures { IfOk result (λ starts. starts.items ≡ addresses types.now store.now) }
{
    let mut starts = Vec::new(alloc);
    let mut next = FIRST_ADDRESS as u32;
    for object in store.objects.as_slice() {
        starts.push(next)?;
        next = address_after(next, object_size(types, object)?)?;
    }
    Ok(starts)
}

/// The bytes of an object; none where it is dead.
fn object_bytes(alloc: Global, layout: &Layout, object: &Object) -> Result<Bytes8, Memory>
    ensures { IfOk result (λ bytes. bytes ≡ live_bytes layout.now.types.now layout.now.addresses.now object.now) }
{
    let mut bytes = Vec::new(alloc);
    if let Some(elements) = &object.elements {
        put_items(&mut bytes, layout, object.elem, elements.as_slice())?;
    }
    Ok(Bytes8::new(bytes))
}

/// The globals of a program, with the bytes of their objects in the initial store, which stand at these addresses.
pub fn machine_globals(
    alloc: Global,
    p: &Program,
    starts: &[u32],
    store: &Store,
) -> Result<Sequence<MachineGlobal>, Memory>
    requires store { store.now ≡ initial_store p.now }
    requires starts { starts.now ≡ addresses p.now.types store.now }
    ensures { IfOk result (λ globals. globals ≡ map (machine_global p.now) p.now.globals) }
{
    let layout = Layout {
        types: &p.types,
        addresses: starts,
    };
    let mut globals = Sequence::from_vec(Vec::new(alloc));
    for (index, global) in p.globals.as_slice().iter().enumerate() {
        globals.push(MachineGlobal {
            name: global.name,
            ty: global.ty,
            bytes: object_bytes(alloc, &layout, &store.objects.as_slice()[index])?,
        })?;
    }
    Ok(globals)
}
