// The words of the carried pointers in the bytes of an object.

ghost use Rattle.std.specs.Prelude.{◌≡◌, ◌++◌, Option, slice_get, OnOk};
ghost use Rattle.c_types.specs.Numbering.{is_array};
ghost use Rattle.lu_image_store.specs.Versions as spec;
ghost use Rattle.lu_image_store.specs.Carried.{type_at_top};
ghost use Rattle.lu_scan.specs.Given.{versions};
ghost use Rattle.lu_walk.specs.ObjectWords.{elements_words, common_words, unpaired_words, global_words, heap_words, object_words};
ghost use Rattle.lu_walk.specs.Extents.{extent_in};

use bm_objects::Row;
use c_types::{Ty, TyId, TypeTable};
use lu_base::Memory;
use lu_scan::{PairedPrograms, Part, scan_items};

/// An object as so many elements of a type.
#[derive(Clone, Copy)]
pub(crate) struct Extent {
    pub elem: TyId,
    pub count: u32,
    pub is_array: bool,
}

/// A global of a type, as elements.
fn global_extent(types: &TypeTable, ty: TyId) -> Extent
    ensures { extent_in result ≡ spec.global_extent types.now ty }
{
    match types.parts().find_type(ty) {
        Some(Ty::Array(elem, count)) => Extent {
            elem,
            count,
            is_array: true,
        },
        _ => Extent {
            elem: ty,
            count: 1,
            is_array: false,
        },
    }
}

/// Puts the words of so many elements behind the others.
fn put_elements(
    programs: &PairedPrograms,
    ty: TyId,
    new: Option<Ty>,
    count: u32,
    bytes: &[u8],
    words: &mut Vec<u32>,
) -> Result<(), Memory>
    ensures { OnOk result (words.new.items ≡ words.old.items
        ++ elements_words (versions programs.now) ty new count bytes.now) }
{
    let part = Part {
        ty,
        handled: true,
        new,
    };
    let depth = programs.pairing.old.types.parts().types.as_slice().len();
    scan_items(programs, depth, part, count, bytes, words)
}

/// Puts the words of the elements that an old object and a new one both have behind the others.
fn put_common(
    programs: &PairedPrograms,
    old: Extent,
    new: Extent,
    count: u32,
    bytes: &[u8],
    words: &mut Vec<u32>,
) -> Result<(), Memory>
    ensures { OnOk result (words.new.items ≡ words.old.items
        ++ common_words (versions programs.now) (extent_in old) (extent_in new) count bytes.now) }
{
    if old.is_array != new.is_array {
        return Ok(());
    }
    let ty = programs.new_type(new.elem);
    put_elements(programs, old.elem, ty, new.count.min(count), bytes, words)
}

/// The new type at the top of an object whose site has no pair.
fn type_at_top(programs: &PairedPrograms, ty: TyId) -> Option<Ty>
    ensures { result ≡ type_at_top (versions programs.now)
        (spec.old_type (versions programs.now) ty) }
{
    match programs.pairing.old.types.parts().find_type(ty) {
        Some(Ty::Struct(number)) => programs.paired_struct(number).map(|pair| Ty::Struct(pair)),
        Some(Ty::Union(number)) => programs.paired_union(number).map(|pair| Ty::Union(pair)),
        other => other,
    }
}

/// Puts the words of an object whose global or site has no pair behind the others.
fn put_unpaired(
    programs: &PairedPrograms,
    ty: TyId,
    count: u32,
    bytes: &[u8],
    words: &mut Vec<u32>,
) -> Result<(), Memory>
    ensures { OnOk result (words.new.items ≡ words.old.items
        ++ unpaired_words (versions programs.now) ty count bytes.now) }
{
    let new = type_at_top(programs, ty);
    put_elements(programs, ty, new, count, bytes, words)
}

/// Puts the words of a global behind the others.
fn put_global(
    programs: &PairedPrograms,
    number: usize,
    count: u32,
    bytes: &[u8],
    words: &mut Vec<u32>,
) -> Result<(), Memory>
    ensures { OnOk result (words.new.items ≡ words.old.items
        ++ global_words (versions programs.now) count
        (slice_get programs.now.pairing.now.old.globals number)
        (spec.paired_global (versions programs.now) number) bytes.now) }
{
    let Some(ty) = programs.old_global(number) else {
        return Ok(());
    };
    let old = global_extent(&programs.pairing.old.types, ty);
    match programs.paired_global(number) {
        Some(pair) => {
            let new = global_extent(&programs.pairing.new.types, pair);
            put_common(programs, old, new, count, bytes, words)
        }
        None => put_unpaired(programs, old.elem, count, bytes, words),
    }
}

/// Puts the words of an object of the heap behind the others.
fn put_heap(
    programs: &PairedPrograms,
    site: u32,
    row: &Row,
    bytes: &[u8],
    words: &mut Vec<u32>,
) -> Result<(), Memory>
    ensures { OnOk result (words.new.items ≡ words.old.items
        ++ heap_words (versions programs.now) row.now
        (spec.paired_site (versions programs.now) site) bytes.now) }
{
    match programs.paired_site(site) {
        Some(elem) => {
            let old = Extent {
                elem: row.elem,
                count: row.count,
                is_array: true,
            };
            let new = Extent {
                elem,
                count: row.count,
                is_array: true,
            };
            put_common(programs, old, new, row.count, bytes, words)
        }
        None => put_unpaired(programs, row.elem, row.count, bytes, words),
    }
}

/// Puts the words of the carried pointers in an object's bytes behind the others, in order.
pub(crate) fn put_words(
    programs: &PairedPrograms,
    number: usize,
    row: &Row,
    bytes: &[u8],
    words: &mut Vec<u32>,
) -> Result<(), Memory>
    ensures { OnOk result (words.new.items ≡ words.old.items
        ++ object_words (versions programs.now) number row.now bytes.now) }
{
    match row.site {
        Some(site) => put_heap(programs, site, row, bytes, words),
        None => put_global(programs, number, row.count, bytes, words),
    }
}
