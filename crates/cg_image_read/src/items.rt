// The items of the lists of an image.

ghost use Rattle.std.specs.Prelude.{◌≡◌};
ghost use Rattle.cg_image_read.specs.Answer.{Gives};
ghost use Rattle.cg_image_read.specs.Fields.{entry_at};
ghost use Rattle.cg_image_read.specs.Types.{kind_of, kind_in, kind_at, array_at, tagged_at, type_at, field_at, tag_at, signature_at, made};
ghost use Rattle.cg_image_read.specs.Items.{site_at};

use crate::error::ImageError;
use crate::fields::{ReadItem, read_items, split_entry, split_number, split_ranged};
use bm_code::code::MachineSite;
use c_types::{FieldDef, IntKind, Signature, TagDef, Ty, TyId};
use lu_base::limits::{ENTRIES, PARAMETERS};
use std::alloc::Global;

fn kind_of(number: u8) -> Option<IntKind>
    ensures { result ≡ kind_of number }
{
    match number {
        0 => Some(IntKind::Char),
        1 => Some(IntKind::UChar),
        2 => Some(IntKind::Short),
        3 => Some(IntKind::UShort),
        4 => Some(IntKind::Int),
        5 => Some(IntKind::UInt),
        6 => Some(IntKind::LongLong),
        7 => Some(IntKind::ULongLong),
        _ => None,
    }
}

#[tactic(auto, unfolding(crate::specs::Types::kind_at))]
fn split_kind(at: usize, bytes: &[u8]) -> Result<(Ty, &[u8]), ImageError>
    ensures { Gives (λ x. (x.0, x.1.now)) result (kind_at at bytes.now) }
{
    let Some((number, rest)) = bytes.split_first() else {
        return Err(ImageError::Truncated);
    };
    match kind_of(*number) {
        None => Err(ImageError::Table { at }),
        Some(kind) => Ok((Ty::Int(kind), rest)),
    }
}

#[tactic(auto, unfolding(crate::specs::Types::array_at))]
fn split_array(types: usize, at: usize, bytes: &[u8]) -> Result<(Ty, &[u8]), ImageError>
    ensures { Gives (λ x. (x.0, x.1.now)) result (array_at types at bytes.now) }
{
    let (element, rest) = split_entry(types, at, bytes)?;
    let (count, rest) = split_number(rest)?;
    Ok((Ty::Array(element, count), rest))
}

/// The parts of a type by its tag.
#[tactic(auto, unfolding(crate::specs::Types::tagged_at))]
fn split_tagged(types: usize, at: usize, tag: u8, bytes: &[u8]) -> Result<(Ty, &[u8]), ImageError>
    ensures { Gives (λ x. (x.0, x.1.now)) result (tagged_at types at tag bytes.now) }
{
    match tag {
        0 => split_kind(at, bytes),
        1 => {
            let (to, rest) = split_entry(types, at, bytes)?;
            Ok((Ty::Pointer(to), rest))
        }
        2 => Ok((Ty::VoidPointer, bytes)),
        3 => {
            let (number, rest) = split_number(bytes)?;
            Ok((Ty::Function(number), rest))
        }
        4 => {
            let (number, rest) = split_number(bytes)?;
            Ok((Ty::Struct(number), rest))
        }
        5 => {
            let (number, rest) = split_number(bytes)?;
            Ok((Ty::Union(number), rest))
        }
        6 => split_array(types, at, bytes),
        _ => Err(ImageError::Table { at }),
    }
}

/// Reads types, of which there are `types`.
#[derive(Clone, Copy)]
pub(crate) struct TypeReader {
    pub types: usize,
}

impl ReadItem<Ty> for TypeReader {
    ghost item_at = { λ r. type_at r.types };

    #[tactic(auto, unfolding(crate::specs::Types::type_at))]
    fn read<'a>(
        &self,
        _alloc: Global,
        at: usize,
        bytes: &'a [u8],
    ) -> Result<(Ty, &'a [u8]), ImageError> {
        let Some((tag, rest)) = bytes.split_first() else {
            return Err(ImageError::Truncated);
        };
        split_tagged(self.types, at, *tag, rest)
    }
}

/// Reads fields of an item that begins at `owner`.
#[derive(Clone, Copy)]
struct FieldReader {
    names: usize,
    types: usize,
    owner: usize,
}

impl ReadItem<FieldDef> for FieldReader {
    ghost item_at = { λ r _. field_at r.names r.types r.owner };

    #[tactic(auto, unfolding(crate::specs::Types::field_at))]
    fn read<'a>(
        &self,
        _alloc: Global,
        _at: usize,
        bytes: &'a [u8],
    ) -> Result<(FieldDef, &'a [u8]), ImageError> {
        let (name, rest) = split_entry(self.names, self.owner, bytes)?;
        let (ty, rest) = split_entry(self.types, self.owner, rest)?;
        Ok((FieldDef { name, ty }, rest))
    }
}

/// Reads structs or unions, of a program with so many names and types.
#[derive(Clone, Copy)]
pub(crate) struct TagReader {
    pub names: usize,
    pub types: usize,
}

impl ReadItem<TagDef> for TagReader {
    ghost item_at = { λ r. tag_at r.names r.types };

    #[tactic(auto, unfolding(crate::specs::Types::tag_at))]
    fn read<'a>(
        &self,
        alloc: Global,
        at: usize,
        bytes: &'a [u8],
    ) -> Result<(TagDef, &'a [u8]), ImageError> {
        let (tag, rest) = split_entry(self.names, at, bytes)?;
        let (count, rest) = split_ranged(0, ENTRIES, at, rest)?;
        let reader = FieldReader {
            names: self.names,
            types: self.types,
            owner: at,
        };
        let (fields, rest) = read_items(alloc, &reader, 0, count, rest)?;
        Ok((TagDef { tag, fields }, rest))
    }
}

/// Reads the parameters of a signature that begins at `owner`.
#[derive(Clone, Copy)]
struct ParameterReader {
    types: usize,
    owner: usize,
}

impl ReadItem<TyId> for ParameterReader {
    ghost item_at = { λ r _. entry_at r.types r.owner };

    fn read<'a>(
        &self,
        _alloc: Global,
        _at: usize,
        bytes: &'a [u8],
    ) -> Result<(TyId, &'a [u8]), ImageError> {
        split_entry(self.types, self.owner, bytes)
    }
}

/// Reads signatures, of a program with so many types.
#[derive(Clone, Copy)]
pub(crate) struct SignatureReader {
    pub types: usize,
}

impl ReadItem<Signature> for SignatureReader {
    ghost item_at = { λ r. signature_at r.types };

    #[tactic(auto, unfolding(crate::specs::Types::signature_at))]
    fn read<'a>(
        &self,
        alloc: Global,
        at: usize,
        bytes: &'a [u8],
    ) -> Result<(Signature, &'a [u8]), ImageError> {
        let (answer, rest) = split_ranged(0, self.types, at, bytes)?;
        let (count, rest) = split_ranged(0, PARAMETERS, at, rest)?;
        let reader = ParameterReader {
            types: self.types,
            owner: at,
        };
        let (params, rest) = read_items(alloc, &reader, 0, count, rest)?;
        Ok((
            Signature {
                result: answer.checked_sub(1),
                params,
            },
            rest,
        ))
    }
}

/// Reads sites, of a program with so many functions and types.
#[derive(Clone, Copy)]
pub(crate) struct SiteReader {
    pub functions: usize,
    pub types: usize,
}

impl ReadItem<MachineSite> for SiteReader {
    ghost item_at = { λ r. site_at r.functions r.types };

    #[tactic(auto, unfolding(crate::specs::Items::site_at))]
    fn read<'a>(
        &self,
        _alloc: Global,
        at: usize,
        bytes: &'a [u8],
    ) -> Result<(MachineSite, &'a [u8]), ImageError> {
        let (function, rest) = split_entry(self.functions, at, bytes)?;
        let (ordinal, rest) = split_number(rest)?;
        let (elem, rest) = split_entry(self.types, at, rest)?;
        Ok((
            MachineSite {
                function,
                ordinal,
                elem,
            },
            rest,
        ))
    }
}
