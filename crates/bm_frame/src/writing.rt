// The instructions that write memory.

ghost use Rattle.std.specs.Prelude.{◌≡◌, ◌+◌, ◌-◌, ◌<◌, ◌≤◌, ◌^◌, ℕ, List, Option, Some, None, length, replicate, max, IfSome, OnErr, Result, slice_get};
ghost use Rattle.std.specs.FinMap.{insert};
ghost use Rattle.lu_spec.specs.Splice.{piece_at, spliced};
ghost use Rattle.bm_mem.specs.Content.{Content, Holds, IsInside};
ghost use Rattle.bm_objects.specs.declared.row.Row.{Row as RowValue};
ghost use Rattle.bm_code.specs.Access.{live_at, read_at, written_at, scalars, scalar_size};
ghost use Rattle.bm_code.specs.Frames.{some_or, bad};
ghost use Rattle.lu_spec.specs.LittleEndian.{little_endian};
ghost use Rattle.bm_code.specs.Pointers.{with_active, with_member, written};
ghost use Rattle.bm_code.specs.declared.operation.Writing.TheVariants as W;
ghost use Rattle.bm_frame.specs.View.{frame_of, Leaves};
ghost use Rattle.bm_code.specs.Mapped.{IsMapped, or_bad};

use crate::frame::Frame;
use crate::memory::{live_row, read_number, scalar_size};
use bm_code::operation::Writing;
use bm_mem::Bytes;
use bm_objects::Objects;
use lu_base::Trap;

/// How many bytes are moved at once.
const CHUNK: u32 = 64;

/// Puts a piece at an address, if a live object has the range.
fn put_piece<B: Bytes>(
    memory: &mut B,
    objects: &Objects,
    address: u64,
    piece: &[u8],
) -> Result<(), Trap>
    requires short { length piece.now < 2 ^ 32 }
    requires mapped { IsMapped (B.content memory.old) objects.now }
    ensures is { Leaves result (or_bad (written_at (B.content memory.old) objects.now address piece.now)) (B.content memory.new) }
    ensures mapped { IsMapped (B.content memory.new) objects.now }
    ensures kept { OnErr result (B.content memory.new ≡ B.content memory.old) }
{
    let Some(_row) = live_row(objects, address, piece.len() as u64) else {
        return Err(Trap::BadCode);
    };
    memory.write(address as u32, piece);
    Ok(())
}

/// Copies at most `CHUNK` bytes.
fn copy_chunk<B: Bytes>(memory: &mut B, from: u32, to: u32, count: u32)
    requires count { count ≤ CHUNK }
    requires from { IsInside (B.content memory.old) from count }
    requires to { IsInside (B.content memory.old) to count }
    ensures { (s t : ℕ) (a b : List ℕ) → Holds (B.content memory.old) s a from count → Holds (B.content memory.old) t b to count
        → B.content memory.new ≡ insert (B.content memory.old) t (spliced b (to - t) (piece_at a (from - s) count)) }
{
    let mut buffer = [0u8; 64];
    memory.copy_out(from, &mut buffer[..count as usize]);
    memory.write(to, &buffer[..count as usize]);
}

/// Copies bytes, the lowest first.
fn copy_up<B: Bytes>(memory: &mut B, from: u32, to: u32, size: u32)
    requires down { to ≤ from }
    requires from { IsInside (B.content memory.old) from size }
    requires to { IsInside (B.content memory.old) to size }
    requires from_end { from + size < 2 ^ 32 }
    requires to_end { to + size < 2 ^ 32 }
    ensures { (s t : ℕ) (a b : List ℕ) → Holds (B.content memory.old) s a from size → Holds (B.content memory.old) t b to size
        → B.content memory.new ≡ insert (B.content memory.old) t (spliced b (to - t) (piece_at a (from - s) size)) }
{
    let mut done = 0;
    while done < size {
        let count = (size - done).min(CHUNK);
        copy_chunk(memory, from + done, to + done, count);
        done += count;
    }
}

/// Copies bytes, the highest first.
fn copy_down<B: Bytes>(memory: &mut B, from: u32, to: u32, size: u32)
    requires up { from ≤ to }
    requires from { IsInside (B.content memory.old) from size }
    requires to { IsInside (B.content memory.old) to size }
    requires from_end { from + size < 2 ^ 32 }
    requires to_end { to + size < 2 ^ 32 }
    ensures { (s t : ℕ) (a b : List ℕ) → Holds (B.content memory.old) s a from size → Holds (B.content memory.old) t b to size
        → B.content memory.new ≡ insert (B.content memory.old) t (spliced b (to - t) (piece_at a (from - s) size)) }
{
    let mut left = size;
    while left > 0 {
        let count = left.min(CHUNK);
        left -= count;
        copy_chunk(memory, from + left, to + left, count);
    }
}

/// Sets bytes to zero, as many at once as `zeros` has.
fn clear_bytes<B: Bytes>(memory: &mut B, address: u32, size: u32, zeros: &[u8])
    requires zeros { zeros.now ≡ replicate CHUNK 0 }
    requires inside { IsInside (B.content memory.old) address size }
    requires end { address + size < 2 ^ 32 }
    ensures { (s : ℕ) (a : List ℕ) → Holds (B.content memory.old) s a address size
        → B.content memory.new ≡ insert (B.content memory.old) s (spliced a (address - s) (replicate size 0)) }
{
    let mut done = 0;
    while done < size {
        let count = (size - done).min(CHUNK);
        memory.write(address + done, &zeros[..count as usize]);
        done += count;
    }
}

fn store<B: Bytes>(
    memory: &mut B,
    objects: &Objects,
    kind: u32,
    address: u64,
    word: u64,
) -> Result<(), Trap>
    requires { IsMapped (B.content memory.old) objects.now }
    ensures is { Leaves result (some_or (slice_get scalars kind) bad (λ s. or_bad (written_at (B.content memory.old) objects.now address (little_endian (scalar_size s) word)))) (B.content memory.new) }
    ensures mapped { IsMapped (B.content memory.new) objects.now }
    ensures kept { OnErr result (B.content memory.new ≡ B.content memory.old) }
{
    let Some(size) = scalar_size(kind) else {
        return Err(Trap::BadCode);
    };
    put_number(memory, objects, address, word, size)
}

/// Puts the lowest bytes of a word at an address.
fn put_number<B: Bytes>(
    memory: &mut B,
    objects: &Objects,
    address: u64,
    word: u64,
    size: u32,
) -> Result<(), Trap>
    requires size { size ≤ 8 }
    requires mapped { IsMapped (B.content memory.old) objects.now }
    ensures is { Leaves result (or_bad (written_at (B.content memory.old) objects.now address (little_endian size word))) (B.content memory.new) }
    ensures mapped { IsMapped (B.content memory.new) objects.now }
    ensures kept { OnErr result (B.content memory.new ≡ B.content memory.old) }
{
    put_piece(
        memory,
        objects,
        address,
        &word.to_le_bytes()[..size as usize],
    )
}

fn copy<B: Bytes>(
    memory: &mut B,
    objects: &Objects,
    from: u64,
    to: u64,
    size: u32,
) -> Result<(), Trap>
    requires { IsMapped (B.content memory.old) objects.now }
    ensures is { Leaves result (some_or (read_at (B.content memory.old) objects.now from size) bad (λ piece. or_bad (written_at (B.content memory.old) objects.now to piece))) (B.content memory.new) }
    ensures mapped { IsMapped (B.content memory.new) objects.now }
    ensures kept { OnErr result (B.content memory.new ≡ B.content memory.old) }
{
    let Some(_source) = live_row(objects, from, size as u64) else {
        return Err(Trap::BadCode);
    };
    let Some(_target) = live_row(objects, to, size as u64) else {
        return Err(Trap::BadCode);
    };
    if to <= from {
        copy_up(memory, from as u32, to as u32, size);
    } else {
        copy_down(memory, from as u32, to as u32, size);
    }
    Ok(())
}

/// Makes a member of the union at an address active.
fn activate<B: Bytes>(memory: &mut B, at: u32, member: u32, offset: u32, size: u32)
    requires inside { IsInside (B.content memory.old) at (max 4 (offset + size)) }
    requires end { at + offset + size < 2 ^ 32 }
    ensures { (s : ℕ) (a : List ℕ) → Holds (B.content memory.old) s a at (max 4 (offset + size))
        → B.content memory.new ≡ insert (B.content memory.old) s (with_member (at - s) member offset size a) }
{
    clear_bytes(memory, at + offset, size, &[0; 64]);
    memory.write(at, &member.to_le_bytes());
}

fn write_union<B: Bytes>(
    memory: &mut B,
    objects: &Objects,
    address: u64,
    member: u32,
    offset: u32,
    size: u32,
) -> Result<(), Trap>
    requires { IsMapped (B.content memory.old) objects.now }
    ensures is { Leaves result (some_or (live_at objects.now address (max 4 (offset + size))) bad (λ r. or_bad (with_active (B.content memory.old) objects.now address member offset size r))) (B.content memory.new) }
    ensures mapped { IsMapped (B.content memory.new) objects.now }
    ensures kept { OnErr result (B.content memory.new ≡ B.content memory.old) }
{
    let range = (offset as u64 + size as u64).max(4);
    let Some(_row) = live_row(objects, address, range) else {
        return Err(Trap::BadCode);
    };
    let Some(number) = read_number(memory, objects, address, 4) else {
        return Err(Trap::BadCode);
    };
    if number != member as u64 {
        activate(memory, address as u32, member, offset, size);
    }
    Ok(())
}

/// Writes memory, and goes on at the next instruction.
pub fn step_write<B: Bytes>(
    operation: Writing,
    memory: &mut B,
    objects: &Objects,
    frame: &mut Frame,
) -> Result<(), Trap>
    requires place { frame.old.place + 1 < 2 ^ 64 }
    requires mapped { IsMapped (B.content memory.old) objects.now }
    ensures is { Leaves result (written operation (B.content memory.old) objects.now (frame_of frame.old)) (frame_of frame.new, B.content memory.new) }
    ensures mapped { IsMapped (B.content memory.new) objects.now }
    ensures kept { OnErr result (B.content memory.new ≡ B.content memory.old) }
{
    let Some(top) = frame.stack.pop() else {
        return Err(Trap::BadCode);
    };
    match operation {
        Writing::Store(kind) => {
            let Some(word) = frame.stack.pop() else {
                return Err(Trap::BadCode);
            };
            if let Err(trap) = store(memory, objects, kind, top, word) {
                return Err(trap);
            }
        }
        Writing::Copy(size) => {
            let Some(from) = frame.stack.pop() else {
                return Err(Trap::BadCode);
            };
            copy(memory, objects, from, top, size)?;
        }
        Writing::Union {
            member,
            offset,
            size,
        } => {
            write_union(memory, objects, top, member, offset, size)?;
            frame.stack.push(top);
        }
    }
    frame.place += 1;
    Ok(())
}
