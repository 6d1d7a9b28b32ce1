// Steps from a new place to a part of it.

ghost use Rattle.std.specs.Prelude.{◌≡◌, Some, slice_get};
ghost use Rattle.c_types.specs.declared.path.Step.TheVariants as Step;
ghost use Rattle.c_types.specs.declared.parts.Ty.TheVariants as Ty;
ghost use Rattle.c_types.specs.Place.{step_place};
ghost use Rattle.lu_image.specs.Correspondence.{pair_in, do_pair};
ghost use Rattle.lu_image_store.specs.Versions.{field_pairs};
ghost use Rattle.lu_remap.specs.Descent.{versions, part_after, next_place, elements_at, element_at};
ghost use Rattle.lu_remap.specs.Fit.{Fits, ElementsFit};

use crate::elements::Elements;
use c_types::{FieldDef, Place, Step, Ty, TyId, TypeTable};
use lu_image::Pairing;

/// The pair of a number, if it has one.
pub fn pair_in(pairs: &[Option<u32>], number: u32) -> Option<u32>
    ensures { result ≡ pair_in pairs.now number }
{
    match pairs.get(number as usize) {
        None => None,
        Some(pair) => *pair,
    }
}

fn nth_field(fields: &[FieldDef], number: u32) -> Option<FieldDef>
    ensures { result ≡ slice_get fields.now number }
{
    match fields.get(number as usize) {
        None => None,
        Some(field) => Some(*field),
    }
}

/// A field of a struct type; none where the type is no struct or has no such field.
fn field_place(types: &TypeTable, number: TyId, k: u32) -> Option<Place>
    ensures { result ≡ step_place types.now (slice_get types.now.types number) (Step.Field k) }
{
    let parts = types.parts();
    let Some(Ty::Struct(tag)) = parts.find_type(number) else {
        return None;
    };
    let field = nth_field(parts.fields_of(tag), k)?;
    Some(Place {
        ty: field.ty,
        offset: types.offset_of(number, &[Step::Field(k)]),
    })
}

fn do_pair(pairs: &[Option<u32>], old: u32, new: u32) -> bool
    ensures { result ≡ do_pair pairs.now old new }
{
    match pair_in(pairs, old) {
        None => false,
        Some(pair) => pair == new,
    }
}

/// The new numbers of the fields of an old struct; none where there is no such struct.
fn field_pairs(pairing: &Pairing, tag: u32) -> &[Option<u32>]
    ensures { result.now ≡ field_pairs (versions pairing.now) tag }
{
    match pairing.fields.as_slice().get(tag as usize) {
        None => &[],
        Some(fields) => fields.as_slice(),
    }
}

/// The part of a new type that is the pair of a field of an old struct.
fn field_after(pairing: &Pairing, tag: u32, k: u32, ty: TyId) -> Option<Place>
    ensures { result ≡ part_after (versions pairing.now) (Some (Ty.Struct tag)) (Step.Field k) (slice_get pairing.now.new.types.types ty) }
{
    let Some(Ty::Struct(pair)) = pairing.new.types.parts().find_type(ty) else {
        return None;
    };
    if do_pair(pairing.structs.as_slice(), tag, pair) {
        let number = pair_in(field_pairs(pairing, tag), k)?;
        field_place(&pairing.new.types, ty, number)
    } else {
        None
    }
}

/// The new place of a field of an old struct, from the new place of the struct.
pub fn next_field(pairing: &Pairing, tag: u32, k: u32, to: Option<Place>) -> Option<Place>
    requires fits { Fits (versions pairing.now) to }
    ensures value { result ≡ next_place (versions pairing.now) (Some (Ty.Struct tag)) (Step.Field k) to }
    ensures fits { Fits (versions pairing.now) result }
{
    let _parts = pairing.new.types.parts();
    let to = to?;
    let part = field_after(pairing, tag, k, to.ty)?;
    Some(Place {
        ty: part.ty,
        offset: to.offset + part.offset,
    })
}

/// The elements of the array at a new place; none where there is no array.
pub fn elements_at(pairing: &Pairing, to: Option<Place>) -> Option<Elements>
    requires fits { Fits (versions pairing.now) to }
    ensures value { result ≡ elements_at (versions pairing.now) to }
    ensures fits { ElementsFit (versions pairing.now) result }
{
    let to = to?;
    match pairing.new.types.parts().find_type(to.ty) {
        Some(Ty::Array(ty, count)) => Some(Elements {
            ty,
            offset: to.offset,
            count,
        }),
        _ => None,
    }
}

/// An element by its number.
pub fn element_at(pairing: &Pairing, run: Option<Elements>, i: u32) -> Option<Place>
    requires fits { ElementsFit (versions pairing.now) run }
    ensures value { result ≡ element_at (versions pairing.now) run i }
    ensures fits { Fits (versions pairing.now) result }
{
    let run = run?;
    if i < run.count {
        Some(Place {
            ty: run.ty,
            offset: run.offset + i * pairing.new.types.size_of(run.ty),
        })
    } else {
        None
    }
}
