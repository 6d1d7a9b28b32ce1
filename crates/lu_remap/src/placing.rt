// The addresses of the new objects.

ghost use Rattle.std.specs.Prelude.{◌≡◌, ◌+◌, ◌<◌, ◌≤◌, ◌^◌, IfOk, sum_by};
ghost use Rattle.lu_base.specs.Addresses.{address_after};
ghost use Rattle.lu_base.specs.declared.limits.TheConstants.{FIRST_ADDRESS};
ghost use Rattle.lu_remap.specs.Shapes.{placed, room};

use bm_objects::Row;
use lu_base::Memory;
use lu_base::limits::{FIRST_ADDRESS, GAP};
use std::alloc::Global;

/// The address of the object behind one.
fn address_after(address: u64, size: u32) -> u64
    requires { address < 2 ^ 32 }
    ensures { result ≡ address_after address size }
{
    (address + size as u64 + GAP + 15) / 16 * 16
}

/// The rows, each at its address.
pub fn placed(alloc: Global, shapes: &[Row]) -> Result<Vec<Row>, Memory>
    requires { FIRST_ADDRESS + sum_by room shapes.now < 2 ^ 32 }
    ensures { IfOk result (λ rows. rows.items ≡ placed FIRST_ADDRESS shapes.now) }
{
    let mut rows = Vec::new(alloc);
    let mut next = FIRST_ADDRESS;
    for shape in shapes {
        rows.push(Row {
            addr: next as u32,
            ..*shape
        })?;
        next = address_after(next, shape.size);
    }
    Ok(rows)
}
