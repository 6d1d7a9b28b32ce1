// Whether each number names an entry, and a pointer has 4 or 8 bytes.

ghost use Rattle.std.specs.Prelude.{◌≡◌, true, slice_get};
ghost use Rattle.std.specs.List.{list_all};
ghost use Rattle.std.specs.Option.{option_map_or};
ghost use Rattle.c_types.specs.Numbering.{is_pointer_size, is_countable, names_entry, is_array, type_is_numbered, tag_is_numbered, signature_is_numbered, are_countable, is_well_numbered};

use crate::parts::{FieldDef, Parts, Signature, TagDef, Ty, TyId};

fn is_pointer_size(size: u32) -> bool
    ensures { result ≡ is_pointer_size size }
{
    size == 4 || size == 8
}

fn is_countable<T>(items: &[T]) -> bool
    ensures { result ≡ is_countable items.now }
{
    items.len() < u32::MAX as usize
}

fn names_entry<T>(items: &[T], number: u32) -> bool
    ensures { result ≡ names_entry items.now number }
{
    (number as usize) < items.len()
}

fn is_array(parts: &Parts, number: TyId) -> bool
    ensures { result ≡ is_array (slice_get parts.now.types number) }
{
    matches!(
        parts.types.as_slice().get(number as usize),
        Some(Ty::Array(_, _))
    )
}

fn type_is_numbered(parts: &Parts, ty: &Ty) -> bool
    ensures { result ≡ type_is_numbered parts.now ty.now }
{
    match ty {
        Ty::Int(_) | Ty::VoidPointer => true,
        Ty::Pointer(to) => names_entry(parts.types.as_slice(), *to),
        Ty::Function(number) => names_entry(parts.signatures.as_slice(), *number),
        Ty::Struct(number) => names_entry(parts.structs.as_slice(), *number),
        Ty::Union(number) => names_entry(parts.unions.as_slice(), *number),
        Ty::Array(element, _) => {
            names_entry(parts.types.as_slice(), *element) && !is_array(parts, *element)
        }
    }
}

fn fields_are_numbered(types: &[Ty], fields: &[FieldDef]) -> bool
    ensures { result ≡ list_all (λ f. names_entry types.now f.ty) fields.now }
{
    fields.iter().all(|field| names_entry(types, field.ty))
}

fn tag_is_numbered(parts: &Parts, tag: &TagDef) -> bool
    ensures { result ≡ tag_is_numbered parts.now tag.now }
{
    let fields = tag.fields.as_slice();
    is_countable(fields) && fields_are_numbered(parts.types.as_slice(), fields)
}

fn answer_is_numbered(types: &[Ty], answer: Option<TyId>) -> bool
    ensures { result ≡ option_map_or (names_entry types.now) answer true }
{
    match answer {
        None => true,
        Some(number) => names_entry(types, number),
    }
}

fn params_are_numbered(types: &[Ty], params: &[TyId]) -> bool
    ensures { result ≡ list_all (names_entry types.now) params.now }
{
    params.iter().all(|number| names_entry(types, *number))
}

fn signature_is_numbered(parts: &Parts, signature: &Signature) -> bool
    ensures { result ≡ signature_is_numbered parts.now signature.now }
{
    let types = parts.types.as_slice();
    let params = signature.params.as_slice();
    answer_is_numbered(types, signature.result)
        && is_countable(params)
        && params_are_numbered(types, params)
}

fn are_countable(parts: &Parts) -> bool
    ensures { result ≡ are_countable parts.now }
{
    is_countable(parts.types.as_slice())
        && is_countable(parts.structs.as_slice())
        && is_countable(parts.unions.as_slice())
        && is_countable(parts.signatures.as_slice())
}

fn types_are_numbered(parts: &Parts, types: &[Ty]) -> bool
    ensures { result ≡ list_all (type_is_numbered parts.now) types.now }
{
    types.iter().all(|ty| type_is_numbered(parts, ty))
}

fn tags_are_numbered(parts: &Parts, tags: &[TagDef]) -> bool
    ensures { result ≡ list_all (tag_is_numbered parts.now) tags.now }
{
    tags.iter().all(|tag| tag_is_numbered(parts, tag))
}

fn signatures_are_numbered(parts: &Parts, signatures: &[Signature]) -> bool
    ensures { result ≡ list_all (signature_is_numbered parts.now) signatures.now }
{
    signatures
        .iter()
        .all(|signature| signature_is_numbered(parts, signature))
}

/// Whether each number of a type, struct, union or signature names an entry, no array's element is an
/// array, each list has fewer than 4,294,967,295 entries, and a pointer takes 4 or 8 bytes.
pub fn well_numbered(parts: &Parts) -> bool
    ensures { result ≡ is_well_numbered parts.now }
{
    are_countable(parts)
        && types_are_numbered(parts, parts.types.as_slice())
        && tags_are_numbered(parts, parts.structs.as_slice())
        && tags_are_numbered(parts, parts.unions.as_slice())
        && signatures_are_numbered(parts, parts.signatures.as_slice())
        && is_pointer_size(parts.pointer)
}
