// The bytes of an object.

ghost use Rattle.std.specs.Prelude.{◌≡◌, IfOk, Some, replicate};
ghost use Rattle.std.specs.FinMap.{get};
ghost use Rattle.bm_code.specs.Mapped.{HasObject};

use bm_mem::Bytes;
use bm_objects::Row;
use lu_base::Memory;
use std::alloc::Global;

fn zeros(alloc: Global, size: u32) -> Result<Vec<u8>, Memory>
    ensures { IfOk result (λ bytes. bytes.items ≡ replicate size 0) }
{
    Ok(vec![in alloc; 0; size as usize]?)
}

/// The bytes of a row's object.
pub(crate) fn object_bytes<B: Bytes>(
    alloc: Global,
    memory: &B,
    row: &Row,
) -> Result<Vec<u8>, Memory>
    requires { HasObject (B.content memory.now) row.now }
    ensures { IfOk result (λ bytes. get (B.content memory.now) row.now.addr ≡ Some bytes.items) }
{
    let mut bytes = zeros(alloc, row.size)?;
    memory.copy_out(row.addr, &mut bytes);
    Ok(bytes)
}
