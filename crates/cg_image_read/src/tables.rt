// The front of an image: magic, version, names and types.

ghost use Rattle.std.specs.Prelude.{◌≡◌, length, drop};
ghost use Rattle.cg_image.specs.Image.{type_bytes};
ghost use Rattle.cg_image_read.specs.Answer.{Gives};
ghost use Rattle.cg_image_read.specs.Types.{knows, first_refused};
ghost use Rattle.cg_image_read.specs.Reading.{magic_at, pointer_at, known_at, parts_at, tables_at};

use crate::error::ImageError;
use crate::fields::{place, read_items, read_limited, split_number};
use crate::items::{SignatureReader, TagReader, TypeReader};
use crate::later::{Later, knows};
use crate::names::read_names;
use c_types::{Parts, Ty};
use cg_image::MAGIC;
use lu_base::limits::ENTRIES;
use lu_base::{Name, Sequence};
use std::alloc::Global;

/// What is behind the magic.
fn strip_magic(bytes: &[u8]) -> Result<&[u8], ImageError>
    ensures { Gives (λ rest. rest.now) result (magic_at bytes.now) }
{
    if bytes.starts_with(&MAGIC) {
        return Ok(&bytes[4..]);
    }
    if MAGIC.starts_with(bytes) {
        return Err(ImageError::Truncated);
    }
    Err(ImageError::Magic)
}

/// The bytes of a pointer, by the version.
#[tactic(auto, unfolding(crate::specs::Reading::pointer_at))]
fn split_pointer(bytes: &[u8]) -> Result<(u32, &[u8]), ImageError>
    ensures { Gives (λ x. (x.0, x.1.now)) result (pointer_at bytes.now) }
{
    let rest = strip_magic(bytes)?;
    let (version, rest) = split_number(rest)?;
    if version == 1 {
        return Ok((4, rest));
    }
    Err(ImageError::Version)
}

/// How many bytes a type has in an image.
#[tactic(auto, unfolding(lu_spec::specs::LittleEndian::little_endian))]
fn spelled_size(ty: Ty) -> usize
    ensures { result ≡ length (type_bytes ty) }
{
    match ty {
        Ty::Int(_) => 2,
        Ty::VoidPointer => 1,
        Ty::Pointer(_) | Ty::Function(_) | Ty::Struct(_) | Ty::Union(_) => 5,
        Ty::Array(_, _) => 9,
    }
}

/// What is behind so many bytes.
fn skip(bytes: &[u8], count: usize) -> &[u8]
    ensures { result.now ≡ drop count bytes.now }
{
    match bytes.get(count..) {
        None => &[],
        Some(rest) => rest,
    }
}

/// The place of the first of these types, which begin at the front of `bytes`, whose number in a list isn't below `count`.
fn first_unknown(list: Later, count: u32, end: usize, types: &[Ty], bytes: &[u8]) -> Option<usize>
    ensures { result ≡ first_refused (knows list count) end bytes.now types.now }
{
    let mut rest = bytes;
    for ty in types {
        if !knows(list, count, *ty) {
            return Some(place(end, rest));
        }
        rest = skip(rest, spelled_size(*ty));
    }
    None
}

/// The number of entries of a list, where the types, which begin at the front of `first`, know only so many.
#[tactic(auto, unfolding(crate::specs::Reading::known_at))]
fn split_known<'a>(
    list: Later,
    end: usize,
    first: &[u8],
    types: &[Ty],
    bytes: &'a [u8],
) -> Result<(u32, &'a [u8]), ImageError>
    ensures { Gives (λ x. (x.0, x.1.now)) result (known_at list end first.now types.now bytes.now) }
{
    let (count, rest) = split_number(bytes)?;
    if let Some(at) = first_unknown(list, count, end, types, first) {
        return Err(ImageError::Table { at });
    }
    Ok((count, rest))
}

/// Types, structs, unions and signatures, where there are so many names.
#[tactic(auto, unfolding(crate::specs::Reading::parts_at))]
fn read_parts<'a>(
    alloc: Global,
    end: usize,
    names: usize,
    pointer: u32,
    bytes: &'a [u8],
) -> Result<(Parts, &'a [u8]), ImageError>
    ensures { Gives (λ x. (x.0, x.1.now)) result (parts_at end names pointer bytes.now) }
{
    let most = ENTRIES as u32;
    let (number, first) = split_number(bytes)?;
    let count = number as usize;
    let reader = TypeReader { types: count };
    let (types, rest) = read_items(alloc, &reader, end, number, first)?;
    let reader = TagReader {
        names,
        types: count,
    };
    let (number, rest) = split_known(Later::Structs, end, first, types.as_slice(), rest)?;
    let (structs, rest) = read_limited(alloc, &reader, most, end, number, rest)?;
    let (number, rest) = split_known(Later::Unions, end, first, types.as_slice(), rest)?;
    let (unions, rest) = read_limited(alloc, &reader, most, end, number, rest)?;
    let (number, rest) = split_known(Later::Signatures, end, first, types.as_slice(), rest)?;
    let reader = SignatureReader { types: count };
    let (signatures, rest) = read_items(alloc, &reader, end, number, rest)?;
    Ok((
        Parts {
            pointer,
            types,
            structs,
            unions,
            signatures,
        },
        rest,
    ))
}

/// Names, and what types are built of.
#[derive(Debug, Drop)]
pub(crate) struct Tables {
    pub names: Sequence<Name>,
    pub types: Parts,
    /// Where the list of types begins.
    pub at: usize,
}

/// The front of an image.
#[tactic(auto, unfolding(crate::specs::Reading::tables_at))]
pub(crate) fn read_tables(alloc: Global, bytes: &[u8]) -> Result<(Tables, &[u8]), ImageError>
    ensures { Gives (λ x. (x.0, x.1.now)) result (tables_at bytes.now) }
{
    let end = bytes.len();
    let (pointer, rest) = split_pointer(bytes)?;
    let (names, rest) = read_names(alloc, end, rest)?;
    let at = place(end, rest);
    let (types, rest) = read_parts(alloc, end, names.as_slice().len(), pointer, rest)?;
    Ok((Tables { names, types, at }, rest))
}
