// Memory in pages and as a vector, through the trait: ranges over the ends of pages, objects that share a page, the last address.
ghost use Rattle.std.specs.Prelude.{◌≡◌, ◌+◌, ◌<◌, ◌≤◌, ◌^◌, length, vec_len, IfOk};

use bm_mem::{Bytes, Memory, VecBytes};
use bm_pages::PageBytes;
use std::alloc::Global;
use std::process::Abort;
use std::test::Fail;

/// Writes into an object of so many bytes over the end of a page, and reads what stands there.
fn writes_across_a_page<B: Bytes, R: Abort>(rt: &R, alloc: Global, size: u32) -> Result<(), Memory>
    requires long { 4352 ≤ size }
    requires short { size < 65536 }
{
    let mut memory = B::fresh(alloc);
    memory.map(0x1000, size)?;
    memory.write(0x1ffe, &[1, 2, 3, 4]);
    let mut six = [9; 6];
    memory.copy_out(0x1ffd, &mut six);
    assert_eq!(rt; six.as_slice(), [0, 1, 2, 3, 4, 0].as_slice());
    assert_eq!(rt; memory.read(0x1ffc, 4), [0, 0, 1, 2].as_slice());
    assert_eq!(rt; memory.read(0x2000, 2), [3, 4].as_slice());
    memory.unmap(0x1000);
    Ok(())
}

/// Writes a piece between two zeros on each side, and reads it with them.
fn keeps_a_piece<B: Bytes, R: Abort>(
    rt: &R,
    alloc: Global,
    addr: u32,
    piece: &[u8],
) -> Result<(), Memory>
    requires low { 2 ≤ addr }
    requires high { addr + length piece.now + 2 < 2 ^ 32 }
{
    let mut memory = B::fresh(alloc);
    let size = piece.len() + 4;
    memory.map(addr - 2, size as u32)?;
    memory.write(addr, piece);
    let mut all = vec![in alloc; 9; size]?;
    memory.copy_out(addr - 2, &mut all);
    assert_eq!(rt; all.len(), size);
    assert_eq!(rt; &all[..2], [0, 0].as_slice());
    assert_eq!(rt; &all[2..size - 2], piece);
    assert_eq!(rt; &all[size - 2..], [0, 0].as_slice());
    Ok(())
}

/// Takes away one of two objects in a page, and makes it again.
fn shares_a_page<B: Bytes, R: Abort>(rt: &R, alloc: Global) -> Result<(), Memory> {
    let mut memory = B::fresh(alloc);
    memory.map(0x1000, 8)?;
    memory.map(0x1010, 8)?;
    memory.write(0x1000, &[1, 2]);
    memory.write(0x1010, &[3, 4]);
    memory.unmap(0x1000);
    assert_eq!(rt; memory.read(0x1010, 2), [3, 4].as_slice());
    memory.map(0x1000, 8)?;
    assert_eq!(rt; memory.read(0x1000, 2), [0, 0].as_slice());
    assert_eq!(rt; memory.read(0x1010, 2), [3, 4].as_slice());
    Ok(())
}

/// So many bytes that differ from their neighbours.
fn bytes_in_turn(alloc: Global, count: usize) -> Result<Vec<u8>, Memory>
    ensures { IfOk result (λ v. vec_len v ≡ count) }
{
    let mut bytes = vec![in alloc; 1; count]?;
    for (i, byte) in bytes.iter_mut().enumerate() {
        *byte = (i % 251) as u8;
    }
    Ok(bytes)
}

#[test]
fn ranges_go_over_the_end_of_a_page(rt: HostRuntime) -> Result<(), Fail> {
    writes_across_a_page::<PageBytes, HostRuntime>(&rt, rt.alloc(), 9000)?;
    writes_across_a_page::<VecBytes, HostRuntime>(&rt, rt.alloc(), 9000)?;
    Ok(())
}

#[test]
fn an_object_lies_in_three_pages(rt: HostRuntime) -> Result<(), Fail> {
    let piece = bytes_in_turn(rt.alloc(), 4100)?;
    keeps_a_piece::<PageBytes, HostRuntime>(&rt, rt.alloc(), 0x1ffe, &piece)?;
    keeps_a_piece::<VecBytes, HostRuntime>(&rt, rt.alloc(), 0x1ffe, &piece)?;
    Ok(())
}

#[test]
fn an_object_ends_at_the_last_address(rt: HostRuntime) -> Result<(), Fail> {
    let piece = [1, 2, 3, 4];
    keeps_a_piece::<PageBytes, HostRuntime>(&rt, rt.alloc(), 0xffff_fff9, &piece)?;
    keeps_a_piece::<VecBytes, HostRuntime>(&rt, rt.alloc(), 0xffff_fff9, &piece)?;
    Ok(())
}

#[test]
fn an_object_goes_and_its_neighbour_stays(rt: HostRuntime) -> Result<(), Fail> {
    shares_a_page::<PageBytes, HostRuntime>(&rt, rt.alloc())?;
    shares_a_page::<VecBytes, HostRuntime>(&rt, rt.alloc())?;
    Ok(())
}
