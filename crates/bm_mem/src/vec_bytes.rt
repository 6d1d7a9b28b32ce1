// Memory as a vector of objects in address order.

ghost use Rattle.std.specs.Prelude.{◌≡◌, ◌+◌, ◌<◌, ◌≤◌, length, replicate, Any, IfOk};
ghost use Rattle.lu_spec.specs.Splice.{spliced};
ghost use Rattle.bm_mem.specs.Layout.{entries, IsLaidOut, IsCountUpTo, IsPlaceOf};

use crate::bytes::Bytes;
use lu_base::Memory;
use std::alloc::Global;
use std::marker::Model;

#[derive(Drop)]
struct Object {
    addr: u32,
    bytes: Vec<u8>,
}

/// How many objects begin at or below the address, by binary search.
fn count_up_to(objects: &[Object], addr: u32) -> usize
    requires { IsLaidOut (entries objects.now) }
    ensures { IsCountUpTo (entries objects.now) addr result }
{
    objects.partition_point(|object| object.addr <= addr)
}

/// The index of the last object that begins at or below the address, and how far the address is from its first byte.
fn place_of(objects: &[Object], addr: u32) -> (usize, usize)
    requires laid_out { IsLaidOut (entries objects.now) }
    requires begun { Any (λ e. e.0 ≤ addr) (entries objects.now) }
    ensures place { IsPlaceOf (entries objects.now) addr result.0 result.1 }
    ensures inside { result.0 < length objects.now }
{
    let index = count_up_to(objects, addr) - 1;
    (index, (addr - objects[index].addr) as usize)
}

/// Puts a piece in place of as many bytes.
fn overwrite(bytes: &mut [u8], start: usize, piece: &[u8])
    requires { start + length piece.now ≤ length bytes.old }
    ensures { bytes.new ≡ spliced bytes.old start piece.now }
{
    bytes[start..start + piece.len()].copy_from_slice(piece);
}

/// So many zeros.
fn zero_bytes(alloc: Global, size: u32) -> Result<Vec<u8>, Memory>
    ensures { IfOk result (λ bytes. bytes.items ≡ replicate size 0) }
{
    Ok(vec![in alloc; 0; size as usize]?)
}

/// Memory as a vector of objects, each with its own bytes.
#[derive(Drop)]
pub struct VecBytes {
    objects: Vec<Object>,
}

impl Model for VecBytes {
    ghost use Rattle.std.specs.Prelude.{List, ℕ};
    ghost use Rattle.std.specs.Ordering.{nat_cmp};
    ghost use Rattle.std.specs.FinMap.{FinMap, from_entries, code};
    ghost use Rattle.std.specs.Coded.{coded_ℕ, coded_list};

    ghost Value = { FinMap nat_cmp (List ℕ) };

    ghost coded = { code coded_ℕ (coded_list coded_ℕ) };

    ghost use Rattle.bm_mem.specs.Layout.{entries, IsLaidOut};

    ghost view = { λ m. from_entries (entries m.objects.items) };

    ghost invariant = { λ m. IsLaidOut (entries m.objects.items) };
}

impl Bytes for VecBytes {
    ghost content = { λ m. m };

    fn fresh(alloc: Global) -> Self {
        VecBytes {
            objects: Vec::new(alloc),
        }
    }

    fn map(&mut self, addr: u32, size: u32) -> Result<(), Memory> {
        let alloc = *self.objects.allocator();
        let bytes = zero_bytes(alloc, size)?;
        let index = count_up_to(&self.objects, addr);
        self.objects.insert(index, Object { addr, bytes })?;
        Ok(())
    }

    fn unmap(&mut self, addr: u32) {
        let (index, _) = place_of(&self.objects, addr);
        let _gone = self.objects.remove(index);
    }

    fn read(&self, addr: u32, len: u32) -> &[u8] {
        let (index, start) = place_of(&self.objects, addr);
        let object = &self.objects[index];
        &object.bytes[start..start + len as usize]
    }

    fn copy_out(&self, addr: u32, into: &mut [u8]) {
        if into.is_empty() {
            return;
        }
        let (index, start) = place_of(&self.objects, addr);
        let object = &self.objects[index];
        let end = start + into.len();
        into.copy_from_slice(&object.bytes[start..end]);
    }

    fn write(&mut self, addr: u32, piece: &[u8]) {
        if piece.is_empty() {
            return;
        }
        let (index, start) = place_of(&self.objects, addr);
        let object = &mut self.objects[index];
        overwrite(&mut object.bytes, start, piece);
    }
}
