// Scalar types by number, and what moves their words.

ghost use Rattle.std.specs.Prelude.{◌≡◌, ◌++◌, OnOk};
ghost use Rattle.src_meaning.specs.Integers as integers;
ghost use Rattle.src_meaning.specs.ValidTypes as valid;
ghost use Rattle.cg_expr.specs.Pieces as spec;
ghost use Rattle.cg_expr.specs.Sizes as sizes;

use crate::target::{pointer_size, put, type_of};
use bm_isa::Instr;
use c_types::{IntKind, Ty, TyId, TypeTable};
use lu_base::Memory;

/// The number of an integer type in instructions.
pub fn int_number(kind: IntKind) -> u32
    ensures { result ≡ spec.int_number kind }
{
    match kind {
        IntKind::Char => 0,
        IntKind::UChar => 1,
        IntKind::Short => 2,
        IntKind::UShort => 3,
        IntKind::Int => 4,
        IntKind::UInt => 5,
        IntKind::LongLong => 6,
        IntKind::ULongLong => 7,
    }
}

/// The kind of a scalar by its type, where a pointer has so many bytes; 12 where the type is no scalar.
pub fn scalar_number(pointer: u32, ty: Option<Ty>) -> u32
    ensures { result ≡ spec.scalar_number pointer ty }
{
    match ty {
        Some(Ty::Int(kind)) => int_number(kind),
        Some(Ty::Pointer(_)) | Some(Ty::VoidPointer) => if pointer == 8 { 10 } else { 8 },
        Some(Ty::Function(_)) => if pointer == 8 { 11 } else { 9 },
        Some(Ty::Struct(_)) | Some(Ty::Union(_)) | Some(Ty::Array(_, _)) => 12,
        None => 12,
    }
}

/// Whether a type is an integer type, a pointer or a function pointer.
pub fn is_scalar(ty: Option<Ty>) -> bool
    ensures { result ≡ valid.is_scalar ty }
{
    match ty {
        Some(Ty::Int(_)) | Some(Ty::Function(_)) => true,
        Some(Ty::Pointer(_)) | Some(Ty::VoidPointer) => true,
        Some(Ty::Struct(_)) | Some(Ty::Union(_)) | Some(Ty::Array(_, _)) => false,
        None => false,
    }
}

/// Whether integers of a type may be below 0.
pub fn is_signed(kind: IntKind) -> bool
    ensures { result ≡ integers.is_signed kind }
{
    match kind {
        IntKind::Char | IntKind::Short | IntKind::Int | IntKind::LongLong => true,
        IntKind::UChar | IntKind::UShort | IntKind::UInt | IntKind::ULongLong => false,
    }
}

/// The bits of an integer type.
pub fn bits_of(kind: IntKind) -> u32
    ensures { result ≡ integers.bits_of kind }
{
    match kind {
        IntKind::Char | IntKind::UChar => 8,
        IntKind::Short | IntKind::UShort => 16,
        IntKind::Int | IntKind::UInt => 32,
        IntKind::LongLong | IntKind::ULongLong => 64,
    }
}

/// Cuts a word to an integer type; a pointer stays.
pub fn put_normal(code: &mut Vec<Instr>, ty: Option<Ty>) -> Result<(), Memory>
    ensures { OnOk result (code.new.items ≡ code.old.items ++ spec.normal ty) }
{
    match ty {
        Some(Ty::Int(kind)) => put(
            code,
            Instr::Normalize {
                int_type: int_number(kind),
            },
        ),
        Some(Ty::Pointer(_)) | Some(Ty::VoidPointer) | Some(Ty::Function(_)) => Ok(()),
        Some(Ty::Struct(_)) | Some(Ty::Union(_)) | Some(Ty::Array(_, _)) => Ok(()),
        None => Ok(()),
    }
}

/// Loads a scalar from its address; the address of another value stays.
pub fn put_load(code: &mut Vec<Instr>, types: &TypeTable, number: TyId) -> Result<(), Memory>
    ensures { OnOk result (code.new.items
        ≡ code.old.items ++ sizes.load_last (spec.pointer_size types.now) (valid.ty types.now number)) }
{
    let ty = type_of(types, number);
    if is_scalar(ty) {
        let kind = scalar_number(pointer_size(types), ty);
        put(code, Instr::Load { kind })
    } else {
        Ok(())
    }
}
