// The descent through an old object to all candidates at an offset.

ghost use Rattle.std.specs.Prelude.{◌≡◌, ◌+◌, ◌*◌, ◌<◌, ◌≤◌, ◌^◌, Some, length, slice_get};
ghost use Rattle.c_types.specs.declared.parts.Ty.TheVariants as Ty;
ghost use Rattle.c_types.specs.Layout.{next_multiple, size_of};
ghost use Rattle.c_types.specs.Tables.{fields_of};
ghost use Rattle.lu_image_store.specs.Versions.{old_size, new_size};
ghost use Rattle.lu_image_store.specs.Pointers.{offset_image};
ghost use Rattle.lu_remap.specs.Descent.{aim_of, extent_of, versions, object_elements, place_image, end_image, visit, with_place, with_end, struct_spot, visit_field, visit_elements, visit_before, visit_element};
ghost use Rattle.lu_remap.specs.Fit.{Fits, ElementsFit};
ghost use Rattle.lu_remap.specs.Held.{held_of, field_part, AreKnown};

use crate::aim::Aim;
use crate::elements::Elements;
use crate::spot::Spot;
use crate::step::{element_at, elements_at, next_field};
use c_types::{FieldDef, Place, Ty, TyId, TypeTable};
use lu_image::{Pairing, Why};

/// What a pointer's candidates are, and which images they have.
#[derive(Clone, Copy)]
pub struct Descent<'p> {
    pub pairing: &'p Pairing,
    pub aim: Aim,
}

/// An object as so many elements of a type. A heap object counts as an array, and a global where it is declared as one.
#[derive(Clone, Copy, Debug, PartialEq, Eq)]
pub struct Extent {
    pub elem: TyId,
    pub count: u32,
    pub is_array: bool,
}

/// So many old elements of a type, and the new elements that they become.
#[derive(Clone, Copy)]
struct Stretch {
    ty: TyId,
    count: u32,
    new: Option<Elements>,
}

/// What a type holds in which places may stand outside unions.
#[derive(Clone, Copy)]
enum Held {
    /// The fields of a struct.
    Fields(u32),
    /// So many elements of a type.
    Elements(TyId, u32),
    Nothing,
}

/// A field of an old struct: its number and its type, and where it begins and ends in bytes.
#[derive(Clone, Copy)]
struct FieldPart {
    tag: u32,
    number: u32,
    ty: TyId,
    start: u64,
    end: u64,
}

/// The new elements of an object, if the two objects share paths.
fn object_elements(from: Extent, to: Extent) -> Option<Elements>
    ensures { result ≡ object_elements (extent_of from) (extent_of to) }
{
    if from.is_array == to.is_array {
        Some(Elements {
            ty: to.elem,
            offset: 0,
            count: to.count,
        })
    } else {
        None
    }
}

/// What a type holds.
fn held_by(types: &TypeTable, number: TyId) -> Held
    ensures value { result ≡ held_of (slice_get types.now.types number) }
    ensures known { AreKnown types.now result }
{
    match types.parts().find_type(number) {
        Some(Ty::Struct(tag)) => Held::Fields(tag),
        Some(Ty::Array(ty, count)) => Held::Elements(ty, count),
        _ => Held::Nothing,
    }
}

/// The bytes of a type.
fn size_of(types: &TypeTable, number: TyId) -> u32
    requires { number < length types.now.types }
    ensures value { result ≡ size_of types.now number }
    ensures some { 0 < result }
{
    let _parts = types.parts();
    types.size_of(number)
}

/// The least multiple of an alignment that is at least n.
fn next_multiple(n: u64, align: u32) -> u64
    requires n { n < 2 ^ 60 }
    requires low { 1 ≤ align }
    ensures value { result ≡ next_multiple n align }
{
    let align = align as u64;
    (n + (align - 1)) / align * align
}

/// Where a field stands that comes after `end`.
fn field_part(types: &TypeTable, tag: u32, k: usize, field: FieldDef, end: u64) -> FieldPart
    requires field { slice_get (fields_of types.now tag) k ≡ Some field }
    requires end { end ≤ k * 2 ^ 21 }
    ensures value { result ≡ field_part types.now tag k field end }
    ensures known { result.ty < length types.now.types }
    ensures bound { result.end ≤ (k + 1) * 2 ^ 21 }
{
    let _parts = types.parts();
    let start = next_multiple(end, types.align_of(field.ty));
    FieldPart {
        tag,
        number: k as u32,
        ty: field.ty,
        start,
        end: start + types.size_of(field.ty) as u64,
    }
}

impl Descent<'_> {
    /// The new offset of an old place of a type that begins at the offset.
    fn place_image(&self, ty: TyId, to: Option<Place>) -> Option<u32>
        ensures { result ≡ place_image (versions self.now.pairing.now) (aim_of self.now.aim) ty to }
    {
        let to = to?;
        if self.aim.suits(self.pairing, ty, to.ty) {
            Some(to.offset)
        } else {
            None
        }
    }

    /// The new offset of the end of so many old elements of a type.
    fn end_image(&self, ty: TyId, count: u32, run: Option<Elements>) -> Option<u32>
        requires fits { ElementsFit (versions self.now.pairing.now) run }
        ensures { result ≡ end_image (versions self.now.pairing.now) (aim_of self.now.aim) ty count run }
    {
        let run = run?;
        if count == run.count && self.aim.suits(self.pairing, ty, run.ty) {
            Some(run.offset + run.count * self.pairing.new.types.size_of(run.ty))
        } else {
            None
        }
    }

    /// With a part of a type where it begins at the offset.
    fn add_place(&self, ty: TyId, to: Option<Place>, offset: u32, spot: Spot) -> Spot
        ensures { result ≡ with_place (versions self.now.pairing.now) (aim_of self.now.aim) ty to offset spot }
    {
        let begins = self.aim.is_wanted(ty) && offset == 0;
        spot.add_if(begins, self.place_image(ty, to))
    }

    /// With the end of elements of a size in bytes where it is at the offset.
    fn add_end(&self, stretch: Stretch, size: u32, offset: u32, spot: Spot) -> Spot
        requires size { size ≡ old_size (versions self.now.pairing.now) stretch.ty }
        requires fits { ElementsFit (versions self.now.pairing.now) stretch.new }
        ensures { result ≡ with_end (versions self.now.pairing.now) (aim_of self.now.aim) stretch.ty stretch.count stretch.new offset spot }
    {
        let end = stretch.count as u64 * size as u64;
        let ends = self.aim.is_wanted(stretch.ty) && end == offset as u64;
        spot.add_if(ends, self.end_image(stretch.ty, stretch.count, stretch.new))
    }

    /// With the candidates in a part of a type, by at most so many steps.
    #[cycle(descent)]
    fn visit(&self, depth: usize, ty: TyId, to: Option<Place>, offset: u32, spot: Spot) -> Spot
        requires known { ty < length self.now.pairing.now.old.types.types }
        requires fits { Fits (versions self.now.pairing.now) to }
        ensures { result ≡ visit (versions self.now.pairing.now) (aim_of self.now.aim) depth ty to offset spot }
    {
        let spot = self.add_place(ty, to, offset, spot);
        if depth == 0 {
            return spot;
        }
        match held_by(&self.pairing.old.types, ty) {
            Held::Fields(tag) => self.visit_fields(depth - 1, tag, to, offset, spot),
            Held::Elements(ty, count) => {
                let new = elements_at(self.pairing, to);
                self.visit_elements(depth - 1, Stretch { ty, count, new }, offset, spot)
            }
            Held::Nothing => spot,
        }
    }

    /// With the candidates in the fields of a struct.
    #[cycle(descent)]
    fn visit_fields(
        &self,
        depth: usize,
        tag: u32,
        to: Option<Place>,
        offset: u32,
        spot: Spot,
    ) -> Spot
        requires fits { Fits (versions self.now.pairing.now) to }
        ensures { result ≡ struct_spot (versions self.now.pairing.now) (visit (versions self.now.pairing.now) (aim_of self.now.aim) depth) tag to offset spot }
    {
        let types = &self.pairing.old.types;
        let fields = types.parts().fields_of(tag);
        let mut spot = spot;
        let mut end = 0;
        for (k, field) in fields.iter().enumerate() {
            let part = field_part(types, tag, k, *field, end);
            end = part.end;
            spot = self.visit_field(depth, part, to, offset, spot);
        }
        spot
    }

    /// With the candidates in a field.
    #[cycle(descent)]
    fn visit_field(
        &self,
        depth: usize,
        part: FieldPart,
        to: Option<Place>,
        offset: u32,
        spot: Spot,
    ) -> Spot
        requires known { part.ty < length self.now.pairing.now.old.types.types }
        requires fits { Fits (versions self.now.pairing.now) to }
        ensures { result ≡ visit_field (versions self.now.pairing.now) (visit (versions self.now.pairing.now) (aim_of self.now.aim) depth) (Some (Ty.Struct part.tag)) part.ty part.number part.start part.end to offset spot }
    {
        if part.start <= offset as u64 && offset as u64 <= part.end {
            let next = next_field(self.pairing, part.tag, part.number, to);
            self.visit(depth, part.ty, next, offset - part.start as u32, spot)
        } else {
            spot
        }
    }

    /// With the candidates in elements, their end among them.
    #[cycle(descent)]
    fn visit_elements(&self, depth: usize, stretch: Stretch, offset: u32, spot: Spot) -> Spot
        requires known { stretch.ty < length self.now.pairing.now.old.types.types }
        requires fits { ElementsFit (versions self.now.pairing.now) stretch.new }
        ensures { result ≡ visit_elements (versions self.now.pairing.now) (aim_of self.now.aim) (visit (versions self.now.pairing.now) (aim_of self.now.aim) depth) stretch.ty stretch.count stretch.new offset spot }
    {
        let size = size_of(&self.pairing.old.types, stretch.ty);
        let spot = self.add_end(stretch, size, offset, spot);
        let spot = self.visit_before(depth, stretch, size, offset, spot);
        self.visit_element(depth, stretch, offset / size, offset % size, spot)
    }

    /// With the candidates in the element that ends at the offset.
    #[cycle(descent)]
    fn visit_before(
        &self,
        depth: usize,
        stretch: Stretch,
        size: u32,
        offset: u32,
        spot: Spot,
    ) -> Spot
        requires some { 0 < size }
        requires known { stretch.ty < length self.now.pairing.now.old.types.types }
        requires fits { ElementsFit (versions self.now.pairing.now) stretch.new }
        ensures { result ≡ visit_before (versions self.now.pairing.now) (visit (versions self.now.pairing.now) (aim_of self.now.aim) depth stretch.ty) stretch.new size stretch.count offset spot }
    {
        if offset % size != 0 {
            return spot;
        }
        match (offset / size).checked_sub(1) {
            None => spot,
            Some(i) => self.visit_element(depth, stretch, i, size, spot),
        }
    }

    /// With the candidates in an element by its number.
    #[cycle(descent)]
    fn visit_element(&self, depth: usize, stretch: Stretch, i: u32, offset: u32, spot: Spot) -> Spot
        requires known { stretch.ty < length self.now.pairing.now.old.types.types }
        requires fits { ElementsFit (versions self.now.pairing.now) stretch.new }
        ensures { result ≡ visit_element (versions self.now.pairing.now) (visit (versions self.now.pairing.now) (aim_of self.now.aim) depth stretch.ty) stretch.new stretch.count i offset spot }
    {
        if i < stretch.count {
            let to = element_at(self.pairing, stretch.new, i);
            self.visit(depth, stretch.ty, to, offset, spot)
        } else {
            spot
        }
    }

    /// The new offset of an offset in an object, or why there is none.
    pub fn offset_image(&self, from: Extent, to: Extent, offset: u32) -> Result<u32, Why>
        requires known { from.elem < length self.now.pairing.now.old.types.types }
        requires fits { to.count * new_size (versions self.now.pairing.now) to.elem < 2 ^ 32 }
        ensures { result ≡ offset_image (versions self.now.pairing.now) (aim_of self.now.aim) (extent_of from) (extent_of to) offset }
    {
        let stretch = Stretch {
            ty: from.elem,
            count: from.count,
            new: object_elements(from, to),
        };
        let depth = self.pairing.old.types.parts().types.as_slice().len();
        self.visit_elements(depth, stretch, offset, Spot::Nowhere)
            .answer()
    }
}
