ghost use Rattle.std.specs.Prelude.{◌≡◌, IfOk, slice_get};
ghost use Rattle.c_types.specs.Tables.{fields_of, members_of};

use lu_base::Sequence;
use std::alloc::{AllocError, Global};

/// The number of a type in the list of types.
pub type TyId = u32;

/// The integer types. All are two's complement, and `Char` is signed.
#[derive(Clone, Copy, Debug, PartialEq, Eq, Hash)]
pub enum IntKind {
    Char,
    UChar,
    Short,
    UShort,
    Int,
    UInt,
    LongLong,
    ULongLong,
}

/// A type. Other types, signatures, structs and unions are named by their numbers.
#[derive(Clone, Copy, Debug, PartialEq, Eq, Hash)]
pub enum Ty {
    Int(IntKind),
    Pointer(TyId),
    VoidPointer,
    /// A pointer to a function of this signature.
    Function(u32),
    Struct(u32),
    Union(u32),
    /// An array of so many elements.
    Array(TyId, u32),
}

/// A field of a struct, or a member of a union.
#[derive(Clone, Copy, Debug, PartialEq, Eq)]
pub struct FieldDef {
    /// The number of its name in the program's list of names.
    pub name: u32,
    pub ty: TyId,
}

/// A struct or a union.
#[derive(Debug, Drop)]
pub struct TagDef {
    /// The number of its tag in the program's list of names.
    pub tag: u32,
    pub fields: Sequence<FieldDef>,
}

/// The result and the parameters of a function.
#[derive(Debug, Drop)]
pub struct Signature {
    pub result: Option<TyId>,
    pub params: Sequence<TyId>,
}

/// What a table of types is built of.
#[derive(Debug, Drop)]
pub struct Parts {
    /// The bytes of a pointer, and of a function pointer.
    pub pointer: u32,
    pub types: Sequence<Ty>,
    pub structs: Sequence<TagDef>,
    pub unions: Sequence<TagDef>,
    pub signatures: Sequence<Signature>,
}

fn copy_tags(alloc: Global, tags: &[TagDef]) -> Result<Sequence<TagDef>, AllocError>
    ensures { IfOk result (λ copies. copies ≡ tags.now) }
{
    let mut copies = Vec::new(alloc);
    for tag in tags {
        copies.push(TagDef {
            tag: tag.tag,
            fields: tag.fields.copy(alloc)?,
        })?;
    }
    Ok(Sequence::from_vec(copies))
}

fn copy_signatures(
    alloc: Global,
    signatures: &[Signature],
) -> Result<Sequence<Signature>, AllocError>
    ensures { IfOk result (λ copies. copies ≡ signatures.now) }
{
    let mut copies = Vec::new(alloc);
    for signature in signatures {
        copies.push(Signature {
            result: signature.result,
            params: signature.params.copy(alloc)?,
        })?;
    }
    Ok(Sequence::from_vec(copies))
}

impl Parts {
    pub fn copy(&self, alloc: Global) -> Result<Parts, AllocError>
        ensures { IfOk result (λ parts. parts ≡ self.now) }
    {
        Ok(Parts {
            pointer: self.pointer,
            types: self.types.copy(alloc)?,
            structs: copy_tags(alloc, self.structs.as_slice())?,
            unions: copy_tags(alloc, self.unions.as_slice())?,
            signatures: copy_signatures(alloc, self.signatures.as_slice())?,
        })
    }

    /// The type of a number; none where there is no such type.
    pub fn find_type(&self, number: TyId) -> Option<Ty>
        ensures { result ≡ slice_get self.now.types number }
    {
        match self.types.as_slice().get(number as usize) {
            None => None,
            Some(ty) => Some(*ty),
        }
    }

    /// The fields of a struct; none where there is no such struct.
    pub fn fields_of(&self, number: u32) -> &[FieldDef]
        ensures { result.now ≡ fields_of self.now number }
    {
        match self.structs.as_slice().get(number as usize) {
            None => &[],
            Some(tag) => tag.fields.as_slice(),
        }
    }

    /// The members of a union; none where there is no such union.
    pub fn members_of(&self, number: u32) -> &[FieldDef]
        ensures { result.now ≡ members_of self.now number }
    {
        match self.unions.as_slice().get(number as usize) {
            None => &[],
            Some(tag) => tag.fields.as_slice(),
        }
    }
}
