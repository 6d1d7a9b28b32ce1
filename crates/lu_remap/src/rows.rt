// What a pointer into an old row becomes.

ghost use Rattle.std.specs.Prelude.{◌≡◌, ◌*◌, ◌<◌, ◌^◌, length, slice_get};
ghost use Rattle.std.specs.Option.{option_map};
ghost use Rattle.lu_image_store.specs.Versions.{global_extent, old_extent, new_extent, new_size};
ghost use Rattle.lu_image_store.specs.Pointers.{at_offset, offset_image, target};
ghost use Rattle.lu_remap.specs.Descent.{aim_of, extent_of, versions};
ghost use Rattle.lu_remap.specs.Rows.{CanBeAsked, answer, row_image, row_object, unpaired_fault};

use crate::descent::{Descent, Extent};
use crate::step::pair_in;
use bm_objects::Row;
use c_types::{Ty, TyId, TypeTable};
use lu_image::{Kept, Pairing, Why};

/// An offset in the image of an old object.
#[derive(Clone, Copy, Debug, PartialEq, Eq)]
pub struct Target {
    /// The number of the old object.
    pub object: u32,
    /// In bytes, in the new object.
    pub offset: u32,
}

/// Why a pointer has no image.
#[derive(Clone, Copy, Debug, PartialEq, Eq)]
pub struct RemapFault {
    /// `LostTarget`, `UnpairedSite`, `Dangling`, `NoPlace` or `Ambiguous`.
    pub why: Why,
    /// What a refusal shows: the old target, or the site that has no pair.
    pub kept: Kept,
    /// The number of the old object to which the pointer leads.
    pub object: u32,
    /// In bytes, in the old object.
    pub offset: u32,
}

/// An entry of a list by its number.
pub fn nth(types: &[TyId], number: u32) -> Option<TyId>
    ensures { result ≡ slice_get types.now number }
{
    match types.get(number as usize) {
        None => None,
        Some(ty) => Some(*ty),
    }
}

/// A global of a type.
pub fn global_extent(types: &TypeTable, ty: TyId) -> Extent
    ensures { extent_of result ≡ global_extent types.now ty }
{
    match types.parts().find_type(ty) {
        Some(Ty::Array(elem, count)) => Extent {
            elem,
            count,
            is_array: true,
        },
        _ => Extent {
            elem: ty,
            count: 1,
            is_array: false,
        },
    }
}

/// An old object as elements; none where it is a global that the old program doesn't have.
fn old_extent(pairing: &Pairing, k: u32, row: Row) -> Option<Extent>
    ensures { option_map extent_of result ≡ old_extent (versions pairing.now) k (row_object row) }
{
    match row.site {
        None => {
            let ty = nth(pairing.old.globals.as_slice(), k)?;
            Some(global_extent(&pairing.old.types, ty))
        }
        Some(_) => Some(Extent {
            elem: row.elem,
            count: row.count,
            is_array: true,
        }),
    }
}

/// The new object of an old one, if its global or its site has a pair.
fn new_extent(pairing: &Pairing, k: u32, row: Row) -> Option<Extent>
    ensures { option_map extent_of result ≡ new_extent (versions pairing.now) k (row_object row) }
{
    match row.site {
        None => {
            let pair = pair_in(pairing.globals.as_slice(), k)?;
            let ty = nth(pairing.new.globals.as_slice(), pair)?;
            Some(global_extent(&pairing.new.types, ty))
        }
        Some(site) => {
            let pair = pair_in(pairing.sites.as_slice(), site)?;
            let elem = nth(pairing.new.sites.as_slice(), pair)?;
            Some(Extent {
                elem,
                count: row.count,
                is_array: true,
            })
        }
    }
}

/// The fault of a pointer to an old object without pair.
fn unpaired(k: u32, site: Option<u32>, offset: u32) -> RemapFault
    ensures { result ≡ unpaired_fault k site offset }
{
    let object = k;
    match site {
        None => RemapFault {
            why: Why::LostTarget,
            kept: Kept::Target { object, offset },
            object,
            offset,
        },
        Some(site) => RemapFault {
            why: Why::UnpairedSite,
            kept: Kept::Site(site),
            object,
            offset,
        },
    }
}

/// The image of a pointer into an old object that has an image.
fn moved(
    descent: &Descent<'_>,
    k: u32,
    from: Extent,
    to: Extent,
    offset: u32,
) -> Result<Target, RemapFault>
    requires known { from.elem < length descent.now.pairing.now.old.types.types }
    requires fits { to.count * new_size (versions descent.now.pairing.now) to.elem < 2 ^ 32 }
    ensures { result ≡ answer k offset (at_offset k (target k offset) (offset_image (versions descent.now.pairing.now) (aim_of descent.now.aim) (extent_of from) (extent_of to) offset)) }
{
    let object = k;
    match descent.offset_image(from, to, offset) {
        Ok(offset) => Ok(Target { object, offset }),
        Err(why) => Err(RemapFault {
            why,
            kept: Kept::Target { object, offset },
            object,
            offset,
        }),
    }
}

/// The image of a pointer to an offset in the old row of number k.
pub fn row_image(descent: &Descent<'_>, k: u32, row: Row, offset: u32) -> Result<Target, RemapFault>
    requires { CanBeAsked descent.now.pairing.now k row }
    ensures { result ≡ answer k offset (row_image descent.now.pairing.now (aim_of descent.now.aim) k row offset) }
{
    let object = k;
    if !row.live {
        return Err(RemapFault {
            why: Why::Dangling,
            kept: Kept::Target { object, offset },
            object,
            offset,
        });
    }
    let Some(from) = old_extent(descent.pairing, k, row) else {
        return Err(unpaired(k, row.site, offset));
    };
    let Some(to) = new_extent(descent.pairing, k, row) else {
        return Err(unpaired(k, row.site, offset));
    };
    moved(descent, k, from, to, offset)
}
