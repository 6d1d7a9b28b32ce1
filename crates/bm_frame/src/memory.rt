// The instructions that read memory.

ghost use Rattle.std.specs.Prelude.{◌≡◌, ◌+◌, ◌<◌, ◌≤◌, ◌-◌, ◌^◌, [], ◌∷◌, ◌++◌, ℕ, List, length, replicate, IfSome, is_some, slice_get};
ghost use Rattle.std.specs.Option.{option_map};
ghost use Rattle.c_types.specs.declared.parts.Parts.{Parts};
ghost use Rattle.c_types.specs.Descent.{find_place};
ghost use Rattle.lu_spec.specs.Splice.{piece_at};
ghost use Rattle.bm_mem.specs.Content.{Holds, IsInside};
ghost use Rattle.bm_code.specs.Access.{live_at, read_at, number_of, scalars, scalar_size, scalar_word};
ghost use Rattle.bm_code.specs.Frames.{on_word};
ghost use Rattle.bm_code.specs.Pointers.{read, checked};
ghost use Rattle.bm_code.specs.declared.operation.Reading.TheVariants as R;
ghost use Rattle.bm_frame.specs.View.{frame_of, Leaves};
ghost use Rattle.bm_code.specs.Mapped.{IsMapped, AreKnown};

use crate::frame::Frame;
use crate::pointer::find_row;
use bm_alu::normalize;
use bm_code::operation::Reading;
use bm_mem::Bytes;
use bm_objects::{Objects, Row};
use c_types::{IntKind, TypeTable};
use lu_base::Trap;

/// The object of an address, if it is live and has so many bytes from there on.
pub fn live_row(objects: &Objects, address: u64, size: u64) -> Option<Row>
    requires { size < 2 ^ 40 }
    ensures is { result ≡ live_at objects.now address size }
    ensures low { IfSome result (λ r. r.addr ≤ address) }
    ensures high { IfSome result (λ r. address + size ≤ r.addr + r.size) }
    ensures end { IfSome result (λ r. r.addr + r.size < 2 ^ 32) }
{
    let row = find_row(objects, address)?;
    let end = row.addr as u64 + row.size as u64;
    if row.live && address + size <= end {
        Some(row)
    } else {
        None
    }
}

/// The number of at most eight bytes, the lowest first.
fn number_of_front(bytes: &[u8; 8], count: u32) -> u64
    requires { count ≤ 8 }
    ensures { (front : List ℕ) → length front ≡ count → bytes.now ≡ front ++ replicate (8 - count) 0 → result ≡ number_of front }
{
    let _count = count;
    u64::from_le_bytes(*bytes)
}

/// The number of the bytes at an address.
fn number_at<B: Bytes>(memory: &B, address: u32, size: u32) -> u64
    requires size { size ≤ 8 }
    requires inside { IsInside (B.content memory.now) address size }
    ensures { (start : ℕ) (bytes : List ℕ) → Holds (B.content memory.now) start bytes address size → result ≡ number_of (piece_at bytes (address - start) size) }
{
    let mut buffer = [0u8; 8];
    memory.copy_out(address, &mut buffer[..size as usize]);
    number_of_front(&buffer, size)
}

/// The number of the bytes from an address on, if a live object has them.
pub fn read_number<B: Bytes>(memory: &B, objects: &Objects, address: u64, size: u32) -> Option<u64>
    requires size { size ≤ 8 }
    requires mapped { IsMapped (B.content memory.now) objects.now }
    ensures { result ≡ option_map number_of (read_at (B.content memory.now) objects.now address size) }
{
    let _row = live_row(objects, address, size as u64)?;
    Some(number_at(memory, address as u32, size))
}

/// How many bytes a scalar of a kind has.
pub fn scalar_size(kind: u32) -> Option<u32>
    ensures is { result ≡ option_map scalar_size (slice_get scalars kind) }
    ensures bound { IfSome result (λ n. n ≤ 8) }
{
    match kind {
        0 | 1 => Some(1),
        2 | 3 => Some(2),
        4 | 5 | 8 | 9 => Some(4),
        6 | 7 | 10 | 11 => Some(8),
        _ => None,
    }
}

/// The word of a scalar whose bytes have that number.
fn scalar_word(kind: u32, number: u64) -> u64
    ensures { IfSome (slice_get scalars kind) (λ s. result ≡ scalar_word s number) }
{
    match kind {
        0 => normalize(IntKind::Char, number),
        1 => normalize(IntKind::UChar, number),
        2 => normalize(IntKind::Short, number),
        3 => normalize(IntKind::UShort, number),
        4 => normalize(IntKind::Int, number),
        5 => normalize(IntKind::UInt, number),
        _ => number,
    }
}

fn load<B: Bytes>(memory: &B, objects: &Objects, kind: u32, address: u64) -> Result<u64, Trap>
    requires { IsMapped (B.content memory.now) objects.now }
    ensures { (types : Parts) → result ≡ read (R.Load kind) types (B.content memory.now) objects.now address }
{
    let Some(size) = scalar_size(kind) else {
        return Err(Trap::BadCode);
    };
    let Some(number) = read_number(memory, objects, address, size) else {
        return Err(Trap::BadCode);
    };
    Ok(scalar_word(kind, number))
}

fn read_union<B: Bytes>(
    memory: &B,
    objects: &Objects,
    member: u32,
    address: u64,
) -> Result<u64, Trap>
    requires { IsMapped (B.content memory.now) objects.now }
    ensures { (types : Parts) → result ≡ read (R.Union member) types (B.content memory.now) objects.now address }
{
    let Some(number) = read_number(memory, objects, address, 4) else {
        return Err(Trap::BadCode);
    };
    if number == member as u64 {
        Ok(address)
    } else {
        Err(Trap::UnionMember)
    }
}

/// Whether a place of the type is at an offset of an object, outside unions.
fn fits(types: &TypeTable, row: Row, offset: u32, want: u32) -> bool
    requires { row.elem < length types.now.types }
    ensures { result ≡ is_some (find_place types.now row.elem row.count offset want) }
{
    let _parts = types.parts();
    types.fits(row.elem, row.count, offset, want)
}

fn check(types: &TypeTable, objects: &Objects, want: u32, address: u64) -> Result<u64, Trap>
    requires { AreKnown types.now objects.now }
    ensures { result ≡ checked types.now objects.now want address }
{
    if want as usize >= types.parts().types.as_slice().len() {
        return Err(Trap::BadCode);
    }
    let Some(row) = find_row(objects, address) else {
        return Err(Trap::BadPointer);
    };
    if row.live && fits(types, row, (address - row.addr as u64) as u32, want) {
        Ok(address)
    } else {
        Err(Trap::BadPointer)
    }
}

fn read<B: Bytes>(
    operation: Reading,
    types: &TypeTable,
    memory: &B,
    objects: &Objects,
    address: u64,
) -> Result<u64, Trap>
    requires mapped { IsMapped (B.content memory.now) objects.now }
    requires known { AreKnown types.now objects.now }
    ensures { result ≡ read operation types.now (B.content memory.now) objects.now address }
{
    match operation {
        Reading::Check(want) => check(types, objects, want, address),
        Reading::Load(kind) => load(memory, objects, kind, address),
        Reading::Union(member) => read_union(memory, objects, member, address),
    }
}

/// Puts what is read at an address for the address.
pub fn step_read<B: Bytes>(
    operation: Reading,
    types: &TypeTable,
    memory: &B,
    objects: &Objects,
    frame: &mut Frame,
) -> Result<(), Trap>
    requires place { frame.old.place + 1 < 2 ^ 64 }
    requires mapped { IsMapped (B.content memory.now) objects.now }
    requires known { AreKnown types.now objects.now }
    ensures { Leaves result (on_word (read operation types.now (B.content memory.now) objects.now) (frame_of frame.old)) (frame_of frame.new) }
{
    let Some(address) = frame.stack.pop() else {
        return Err(Trap::BadCode);
    };
    let word = read(operation, types, memory, objects, address)?;
    frame.stack.push(word);
    frame.place += 1;
    Ok(())
}
