// Memory with ample memory, through the trait: ranges across a multiple of 4,096.
ghost use Rattle.std.specs.Prelude.{◌<◌, ◌≤◌};

use bm_mem::{Bytes, Memory, VecBytes};
use std::alloc::Global;
use std::process::Abort;
use std::test::Fail;

/// Writes into an object of so many bytes across a multiple of 4,096, and reads what stands there.
fn writes_across_a_page<B: Bytes, R: Abort>(rt: &R, alloc: Global, size: u32) -> Result<(), Memory>
    requires long { 4352 ≤ size }
    requires short { size < 65536 }
{
    let mut memory = B::fresh(alloc);
    memory.map(0x1000, size)?;
    memory.write(0x1ffe, &[1, 2, 3, 4]);
    let mut six = [9; 6];
    memory.copy_out(0x1ffd, &mut six);
    assert_eq!(rt; six.as_slice(), [0, 1, 2, 3, 4, 0].as_slice());
    assert_eq!(rt; memory.read(0x1ffc, 4), [0, 0, 1, 2].as_slice());
    assert_eq!(rt; memory.read(0x2000, 2), [3, 4].as_slice());
    memory.unmap(0x1000);
    Ok(())
}

#[test]
fn a_vector_is_read_across_a_page(rt: HostRuntime) -> Result<(), Fail> {
    writes_across_a_page::<VecBytes, HostRuntime>(&rt, rt.alloc(), 9000)?;
    Ok(())
}
