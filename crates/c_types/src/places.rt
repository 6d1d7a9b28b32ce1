// The place at an offset of an object.

ghost use Rattle.std.specs.Prelude.{◌≡◌, ◌<◌, length, IfOk, is_some};
ghost use Rattle.c_types.specs.Layout.{size_of};
ghost use Rattle.c_types.specs.Kept.{IsKept};
ghost use Rattle.c_types.specs.Descent.{part_in_array, is_here, find_place};

use crate::descent::{Part, part_at, part_in_array};
use crate::parts::{Parts, TyId};
use crate::path::Path;
use crate::shape::{Shape, shape_at};
use std::alloc::{AllocError, Global};

/// The element of an object that has a byte.
fn element_at(parts: &Parts, shapes: &[Shape], elem: TyId, count: u32, offset: u32) -> Option<Part>
    requires kept { IsKept parts.now shapes.now }
    requires known { elem < length parts.now.types }
    ensures { result ≡ part_in_array elem (size_of parts.now elem) count offset }
{
    part_in_array(elem, shape_at(shapes, elem).size, count, offset)
}

fn is_here(at: Part, want: TyId) -> bool
    ensures { result ≡ is_here at.ty at.rest want }
{
    at.ty == want && at.rest == 0
}

/// The path to the place of a type at an offset outside unions, if there is one.
pub fn find_place(
    alloc: Global,
    parts: &Parts,
    shapes: &[Shape],
    elem: TyId,
    count: u32,
    offset: u32,
    want: TyId,
) -> Result<Option<Path>, AllocError>
    requires kept { IsKept parts.now shapes.now }
    requires known { elem < length parts.now.types }
    ensures { IfOk result
        (λ path. path ≡ find_place parts.now elem count offset want) }
{
    let Some(first) = element_at(parts, shapes, elem, count, offset) else {
        return Ok(None);
    };
    let mut at = first;
    let mut steps = Vec::new(alloc);
    steps.push(at.step)?;
    for _ in 0..parts.types.as_slice().len() {
        if is_here(at, want) {
            return Ok(Some(Path::from_vec(steps)));
        }
        let Some(next) = part_at(parts, shapes, at.ty, at.rest) else {
            return Ok(None);
        };
        at = next;
        steps.push(at.step)?;
    }
    Ok(None)
}

/// Whether there is a place of a type at an offset outside unions.
pub fn has_place(
    parts: &Parts,
    shapes: &[Shape],
    elem: TyId,
    count: u32,
    offset: u32,
    want: TyId,
) -> bool
    requires kept { IsKept parts.now shapes.now }
    requires known { elem < length parts.now.types }
    ensures { result ≡ is_some (find_place parts.now elem count offset want) }
{
    let Some(first) = element_at(parts, shapes, elem, count, offset) else {
        return false;
    };
    let mut at = first;
    for _ in 0..parts.types.as_slice().len() {
        if is_here(at, want) {
            return true;
        }
        let Some(next) = part_at(parts, shapes, at.ty, at.rest) else {
            return false;
        };
        at = next;
    }
    false
}
