// Types that hold themselves, and pointers that lead to themselves.

ghost use Rattle.std.specs.Prelude.{◌≡◌, ◌<◌, false, nat_eq, length, IsTrue, IfOk, slice_get};
ghost use Rattle.std.specs.Option.{option_to_list};
ghost use Rattle.c_types.specs.Numbering.{is_well_numbered};
ghost use Rattle.c_types.specs.Chain.{Chain, held_by, pointed_by, IsPointer, IsCyclic};
ghost use Rattle.c_types.specs.Rounds.{reaches, mark_at};
ghost use Rattle.c_types.specs.Words.{Tells, IsFirst};

use crate::parts::{Parts, Ty, TyId};
use crate::rounds::all_marks;
use std::alloc::{AllocError, Global};

fn mark_at(marks: &[bool], number: TyId) -> bool
    ensures { result ≡ mark_at marks.now number }
{
    match marks.get(number as usize) {
        None => false,
        Some(mark) => *mark,
    }
}

/// Whether a type holds itself by value.
fn holds_itself(alloc: Global, parts: &Parts, number: TyId) -> Result<bool, AllocError>
    requires numbered { IsTrue (is_well_numbered parts.now) }
    requires known { number < length parts.now.types }
    ensures { IfOk result (λ answer. Tells answer (Chain (held_by parts.now) number number)) }
{
    let marks = all_marks(alloc, parts, Some(number), false)?;
    Ok(mark_at(&marks, number))
}

/// The type to which a pointer or an array leads.
fn pointed(parts: &Parts, number: TyId) -> Option<TyId>
    ensures { option_to_list result ≡ pointed_by parts.now number }
{
    match parts.find_type(number) {
        Some(Ty::Pointer(to)) | Some(Ty::Array(to, _)) => Some(to),
        _ => None,
    }
}

/// Whether a type leads to itself through pointers and arrays.
fn leads_to_itself(parts: &Parts, number: TyId) -> bool
    ensures { result
        ≡ reaches (pointed_by parts.now) (λ v. nat_eq v number) false (length parts.now.types) number }
{
    let mut at = number;
    for _ in 0..parts.types.as_slice().len() {
        match pointed(parts, at) {
            None => return false,
            Some(next) => {
                if next == number {
                    return true;
                }
                at = next;
            }
        }
    }
    false
}

fn is_pointer(ty: Option<Ty>) -> bool
    ensures { Tells result (IsPointer ty) }
{
    matches!(ty, Some(Ty::Pointer(_)))
}

/// Whether a pointer leads to itself through pointers and arrays alone.
fn points_to_itself(parts: &Parts, number: TyId) -> bool
    requires numbered { IsTrue (is_well_numbered parts.now) }
    requires known { number < length parts.now.types }
    ensures { Tells result
        (IsPointer (slice_get parts.now.types number) × Chain (pointed_by parts.now) number number) }
{
    is_pointer(parts.find_type(number)) && leads_to_itself(parts, number)
}

/// Whether a type is one of a cycle. A type that is not marked holds none that holds itself.
fn is_cyclic(alloc: Global, parts: &Parts, marked: bool, number: TyId) -> Result<bool, AllocError>
    requires numbered { IsTrue (is_well_numbered parts.now) }
    requires known { number < length parts.now.types }
    requires marked { marked ≡ false → Chain (held_by parts.now) number number → ⊥ }
    ensures { IfOk result (λ answer. Tells answer (IsCyclic parts.now number)) }
{
    if marked && holds_itself(alloc, parts, number)? {
        return Ok(true);
    }
    Ok(points_to_itself(parts, number))
}

/// The first type that holds itself by value, or is a pointer that leads to itself through pointers
/// and arrays alone.
pub fn first_cycle(alloc: Global, parts: &Parts) -> Result<Option<TyId>, AllocError>
    requires { IsTrue (is_well_numbered parts.now) }
    ensures { IfOk result (IsFirst (IsCyclic parts.now)) }
{
    let marks = all_marks(alloc, parts, None, true)?;
    for number in 0..parts.types.as_slice().len() {
        let number = number as TyId;
        if is_cyclic(alloc, parts, mark_at(&marks, number), number)? {
            return Ok(Some(number));
        }
    }
    Ok(None)
}
