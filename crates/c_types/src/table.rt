// A table of types with their sizes and alignments.

ghost use Rattle.std.specs.Prelude.{◌≡◌, ◌<◌, length, IsTrue, IfOk, IfErr, OnOk, MatchBool, MatchOption};
ghost use Rattle.c_types.specs.Numbering.{is_well_numbered};
ghost use Rattle.c_types.specs.Layout.{IsPointerSize, size_of, align_of};
ghost use Rattle.c_types.specs.Place.{path_offset, path_type, IsPlaceAt, HasPlaceAt, HasNoPlaceAt};
ghost use Rattle.c_types.specs.Refusal.{has_bad_length, is_too_big, IsTooBig, IsBuilt, Refuses};
ghost use Rattle.c_types.specs.Words.{IsFirst};
ghost use Rattle.c_types.specs.Kept.{AreCapped};

use crate::cycles::first_cycle;
use crate::descent::path_place;
use crate::duplicates::{first_duplicate, first_empty};
use crate::errors::BuildError;
use crate::parts::{Parts, Ty, TyId};
use crate::path::{Path, Step};
use crate::places::{find_place, has_place};
use crate::rounds::all_shapes;
use crate::shape::{GREATEST, Shape, shape_at};
use lu_base::Memory;
use std::alloc::{AllocError, Global};
use std::marker::Model;

/// Types none of which holds itself, with their sizes and alignments.
#[derive(Debug, Drop)]
pub struct TypeTable {
    parts: Parts,
    shapes: Vec<Shape>,
}

impl Model for TypeTable {
    ghost use Rattle.c_types.specs.declared.parts.Parts.{Parts};

    ghost Value = { Parts };

    ghost use Rattle.c_types.specs.Kept.{IsKept};

    ghost view = { λ t. t.parts };

    ghost invariant = { λ t. IsKept t.parts t.shapes.items };
}

fn has_bad_length(ty: Option<Ty>) -> bool
    ensures { result ≡ has_bad_length ty }
{
    match ty {
        Some(Ty::Array(_, length)) => !(0 < length && length <= GREATEST),
        _ => false,
    }
}

fn is_too_big(parts: &Parts, shapes: &[Shape], number: TyId) -> bool
    requires { AreCapped parts.now shapes.now }
    ensures { result ≡ is_too_big parts.now number }
{
    GREATEST < shape_at(shapes, number).size || has_bad_length(parts.find_type(number))
}

/// The first type whose size is above the greatest, or whose length is none or above the greatest.
fn first_too_big(parts: &Parts, shapes: &[Shape]) -> Option<TyId>
    requires numbered { IsTrue (is_well_numbered parts.now) }
    requires shapes { AreCapped parts.now shapes.now }
    ensures { IsFirst (IsTooBig parts.now) result }
{
    for number in 0..parts.types.as_slice().len() {
        let number = number as TyId;
        if is_too_big(parts, shapes, number) {
            return Some(number);
        }
    }
    None
}

impl TypeTable {
    /// The table of these types. The refusals come in the order of `BuildError`.
    pub fn build(alloc: Global, parts: Parts) -> Result<TypeTable, BuildError>
        requires { IsTrue (is_well_numbered parts) }
        ensures table { IfOk result (λ table. table ≡ parts) }
        ensures built { OnOk result (IsBuilt parts) }
        ensures refused { IfErr result (Refuses parts) }
    {
        if let Some(number) = first_duplicate(alloc, &parts)? {
            return Err(BuildError::Duplicate(number));
        }
        if let Some(number) = first_empty(&parts) {
            return Err(BuildError::Empty(number));
        }
        if let Some(number) = first_cycle(alloc, &parts)? {
            return Err(BuildError::Cycle(number));
        }
        let shapes = all_shapes(alloc, &parts)?;
        if let Some(number) = first_too_big(&parts, &shapes) {
            return Err(BuildError::TooBig(number));
        }
        Ok(TypeTable { parts, shapes })
    }

    /// The parts of which the table was built.
    pub fn parts(&self) -> &Parts
        ensures value { result.now ≡ self.now }
        ensures built { IsBuilt self.now }
    {
        &self.parts
    }

    /// The bytes of a pointer, and of a function pointer.
    pub fn pointer(&self) -> u32
        ensures value { result ≡ self.now.pointer }
        ensures size { IsPointerSize result }
    {
        self.parts.pointer
    }

    /// The bytes of a type; 0 where there is no such type.
    pub fn size_of(&self, number: TyId) -> u32
        ensures { result ≡ size_of self.now number }
    {
        shape_at(&self.shapes, number).size
    }

    /// The alignment of a type in bytes; 1 where there is no such type.
    pub fn align_of(&self, number: TyId) -> u32
        ensures { result ≡ align_of self.now number }
    {
        shape_at(&self.shapes, number).align
    }

    /// A table equal to this one.
    pub fn copy(&self, alloc: Global) -> Result<TypeTable, Memory>
        ensures { IfOk result (λ table. table ≡ self.now) }
    {
        Ok(TypeTable {
            parts: self.parts.copy(alloc)?,
            shapes: Vec::from_slice(alloc, &self.shapes)?,
        })
    }

    /// The bytes from the start of a type to where a path of it leads; 0 where it is no path of the
    /// type.
    pub fn offset_of(&self, number: TyId, path: &[Step]) -> u32
        ensures { result ≡ path_offset self.now number path.now }
    {
        match path_place(&self.parts, &self.shapes, number, path) {
            None => 0,
            Some(place) => place.offset,
        }
    }

    /// The type to which a path of a type leads; the type itself where it is no path of it.
    pub fn type_at(&self, number: TyId, path: &[Step]) -> TyId
        ensures { result ≡ path_type self.now number path.now }
    {
        match path_place(&self.parts, &self.shapes, number, path) {
            None => number,
            Some(place) => place.ty,
        }
    }

    /// The place of type `want` at an offset in bytes of an object of so many elements, outside
    /// unions.
    pub fn place_at(
        &self,
        alloc: Global,
        elem: TyId,
        count: u32,
        offset: u32,
        want: TyId,
    ) -> Result<Option<Path>, Memory>
        requires { elem < length self.now.types }
        ensures { IfOk result (λ found. MatchOption found
            (HasNoPlaceAt self.now elem count offset want)
            (IsPlaceAt self.now elem count offset want)) }
    {
        Ok(find_place(alloc, &self.parts, &self.shapes, elem, count, offset, want)?)
    }

    /// Whether there is such a place.
    pub fn fits(&self, elem: TyId, count: u32, offset: u32, want: TyId) -> bool
        requires { elem < length self.now.types }
        ensures { MatchBool result
            (HasPlaceAt self.now elem count offset want)
            (HasNoPlaceAt self.now elem count offset want) }
    {
        has_place(&self.parts, &self.shapes, elem, count, offset, want)
    }
}
