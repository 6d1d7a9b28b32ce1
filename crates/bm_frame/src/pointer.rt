// The instructions on two pointers, or on a pointer and a count.

ghost use Rattle.std.specs.Prelude.{◌≡◌, ◌+◌, ◌<◌, ◌≤◌, ◌^◌, [], ◌∷◌, ℕ, ℤ, find, IfSome, IfOk};
ghost use Rattle.bm_objects.specs.Table.{reaches};
ghost use Rattle.bm_alu.specs.Words.{signed};
ghost use Rattle.bm_code.specs.Frames.{on_words};
ghost use Rattle.bm_code.specs.Pointers.{shifted, base_of, of_one_object, distance, pointed};
ghost use Rattle.bm_code.specs.declared.operation.Pointing.TheVariants as P;
ghost use Rattle.bm_frame.specs.View.{frame_of, Leaves};
ghost use Rattle.bm_frame.specs.Signs.{directed};

use crate::frame::Frame;
use bm_alu::normalize;
use bm_code::operation::Pointing;
use bm_objects::{Objects, Row};
use c_types::IntKind;
use lu_base::Trap;

/// The object that has an address among its bytes or as its end.
pub fn find_row(objects: &Objects, address: u64) -> Option<Row>
    ensures is { result ≡ find (reaches address) objects.now }
    ensures low { IfSome result (λ r. r.addr ≤ address) }
    ensures high { IfSome result (λ r. address ≤ r.addr + r.size) }
    ensures end { IfSome result (λ r. r.addr + r.size < 2 ^ 32) }
{
    let _count = objects.len();
    if address > u32::MAX as u64 {
        return None;
    }
    objects.find(address as u32)
}

/// A pointer moved by so many elements of `size` bytes, down where `is_down`.
fn shift(objects: &Objects, size: u32, pointer: u64, is_down: bool, count: u64) -> Result<u64, Trap>
    ensures { result ≡ shifted objects.now size pointer (directed is_down count) }
{
    if pointer == 0 {
        return if count == 0 {
            Ok(0)
        } else {
            Err(Trap::PtrRange)
        };
    }
    let Some(row) = find_row(objects, pointer) else {
        return Err(Trap::BadCode);
    };
    let Some(bytes) = count.checked_mul(size as u64) else {
        return Err(Trap::PtrRange);
    };
    let room = if is_down {
        pointer - row.addr as u64
    } else {
        row.addr as u64 + row.size as u64 - pointer
    };
    if bytes > room {
        return Err(Trap::PtrRange);
    }
    Ok(if is_down {
        pointer - bytes
    } else {
        pointer + bytes
    })
}

fn add(objects: &Objects, size: u32, pointer: u64, count: u64) -> Result<u64, Trap>
    ensures { result ≡ shifted objects.now size pointer (signed count) }
{
    let count = count.cast_signed();
    shift(objects, size, pointer, count < 0, count.unsigned_abs())
}

fn subtract(objects: &Objects, size: u32, pointer: u64, count: u64) -> Result<u64, Trap>
    ensures { result ≡ pointed (P.Subtract size) objects.now pointer count }
{
    let count = count.cast_signed();
    shift(objects, size, pointer, count > 0, count.unsigned_abs())
}

/// Where the object of a pointer begins; 0 for null.
fn base_of(objects: &Objects, pointer: u64) -> Option<u64>
    ensures { result ≡ base_of objects.now pointer }
{
    if pointer == 0 {
        return Some(0);
    }
    let row = find_row(objects, pointer)?;
    Some(row.addr as u64)
}

/// The word, where both pointers are to one object or null.
fn of_one_object(objects: &Objects, p: u64, q: u64, word: u64) -> Result<u64, Trap>
    ensures { result ≡ of_one_object objects.now p q word }
{
    let Some(first) = base_of(objects, p) else {
        return Err(Trap::BadCode);
    };
    let Some(second) = base_of(objects, q) else {
        return Err(Trap::BadCode);
    };
    if first == second {
        Ok(word)
    } else {
        Err(Trap::PtrOrder)
    }
}

/// How many elements of `size` bytes lie from q to p, as an int's word.
fn distance(p: u64, q: u64, size: u32) -> u64
    requires { 0 < size }
    ensures { result ≡ distance p q size }
{
    let count = if q <= p {
        (p - q) / size as u64
    } else {
        0u64.wrapping_sub((q - p) / size as u64)
    };
    normalize(IntKind::Int, count)
}

fn difference(objects: &Objects, p: u64, q: u64, size: u32) -> Result<u64, Trap>
    ensures { result ≡ pointed (P.Difference size) objects.now p q }
{
    if size == 0 {
        return Err(Trap::BadCode);
    }
    of_one_object(objects, p, q, distance(p, q, size))
}

fn less(objects: &Objects, p: u64, q: u64) -> Result<u64, Trap>
    ensures { result ≡ pointed P.Less objects.now p q }
{
    of_one_object(objects, p, q, if p < q { 1 } else { 0 })
}

fn point(operation: Pointing, objects: &Objects, p: u64, q: u64) -> Result<u64, Trap>
    ensures { result ≡ pointed operation objects.now p q }
{
    match operation {
        Pointing::Add(size) => add(objects, size, p, q),
        Pointing::Subtract(size) => subtract(objects, size, p, q),
        Pointing::Difference(size) => difference(objects, p, q, size),
        Pointing::Less => less(objects, p, q),
    }
}

/// Puts one word for the two topmost, of which the lower is a pointer.
pub fn step_pointers(operation: Pointing, objects: &Objects, frame: &mut Frame) -> Result<(), Trap>
    requires { frame.old.place + 1 < 2 ^ 64 }
    ensures { Leaves result (on_words (pointed operation objects.now) (frame_of frame.old)) (frame_of frame.new) }
{
    let Some(b) = frame.stack.pop() else {
        return Err(Trap::BadCode);
    };
    let Some(a) = frame.stack.pop() else {
        return Err(Trap::BadCode);
    };
    let word = point(operation, objects, a, b)?;
    frame.stack.push(word);
    frame.place += 1;
    Ok(())
}
