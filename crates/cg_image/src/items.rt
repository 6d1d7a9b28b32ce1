// The items of the lists of an image.

ghost use Rattle.std.specs.Prelude.{◌≡◌, ◌<◌, ◌^◌, [], ◌∷◌, ◌++◌, OnOk, length};
ghost use Rattle.bm_isa.specs.Encoding.{code_bytes};
ghost use Rattle.cg_image.specs.Image.{number_bytes, text_bytes, type_bytes, field_bytes, tag_bytes, signature_bytes, global_bytes, function_bytes, site_bytes, kind_number, result_number};
ghost use Rattle.cg_image.specs.Short.{IsCounted, IsTagCounted, IsSignatureCounted, IsGlobalCounted, IsFunctionCounted};

use crate::spelled::{Spelled, put_list, put_number, put_text};
use bm_code::code::{MachineFunction, MachineGlobal, MachineSite};
use bm_isa::{Instr, encode};
use c_types::{FieldDef, IntKind, Signature, TagDef, Ty, TyId};
use lu_base::{Memory, Name};
use std::alloc::Global;

impl Spelled for u32 {
    ghost spelling = { number_bytes };

    ghost is_counted = { λ _. Unit {0} };

    fn put(&self, alloc: Global, out: &mut Vec<u8>) -> Result<(), Memory> {
        put_number(out, *self)
    }
}

impl Spelled for Name {
    ghost spelling = { text_bytes };

    ghost is_counted = { IsCounted };

    fn put(&self, alloc: Global, out: &mut Vec<u8>) -> Result<(), Memory> {
        put_text(out, self.as_bytes())
    }
}

impl Spelled for Ty {
    ghost spelling = { type_bytes };

    ghost is_counted = { λ _. Unit {0} };

    fn put(&self, alloc: Global, out: &mut Vec<u8>) -> Result<(), Memory> {
        match self {
            Ty::Int(kind) => put_tagged_kind(out, *kind),
            Ty::Pointer(to) => put_tagged(out, 1, *to),
            Ty::VoidPointer => {
                out.push(2)?;
                Ok(())
            }
            Ty::Function(signature) => put_tagged(out, 3, *signature),
            Ty::Struct(number) => put_tagged(out, 4, *number),
            Ty::Union(number) => put_tagged(out, 5, *number),
            Ty::Array(element, length) => {
                put_tagged(out, 6, *element)?;
                put_number(out, *length)
            }
        }
    }
}

fn kind_number(kind: IntKind) -> u8
    ensures { result ≡ kind_number kind }
{
    match kind {
        IntKind::Char => 0,
        IntKind::UChar => 1,
        IntKind::Short => 2,
        IntKind::UShort => 3,
        IntKind::Int => 4,
        IntKind::UInt => 5,
        IntKind::LongLong => 6,
        IntKind::ULongLong => 7,
    }
}

fn put_tagged_kind(out: &mut Vec<u8>, kind: IntKind) -> Result<(), Memory>
    ensures { OnOk result (out.new.items ≡ out.old.items ++ (0 ∷ kind_number kind ∷ [])) }
{
    out.push(0)?;
    out.push(kind_number(kind))?;
    Ok(())
}

/// A tag, and a number.
fn put_tagged(out: &mut Vec<u8>, tag: u8, number: u32) -> Result<(), Memory>
    ensures { OnOk result (out.new.items ≡ out.old.items ++ (tag ∷ number_bytes number)) }
{
    out.push(tag)?;
    put_number(out, number)
}

impl Spelled for FieldDef {
    ghost spelling = { field_bytes };

    ghost is_counted = { λ _. Unit {0} };

    fn put(&self, alloc: Global, out: &mut Vec<u8>) -> Result<(), Memory> {
        put_number(out, self.name)?;
        put_number(out, self.ty)
    }
}

impl Spelled for TagDef {
    ghost spelling = { tag_bytes };

    ghost is_counted = { IsTagCounted };

    fn put(&self, alloc: Global, out: &mut Vec<u8>) -> Result<(), Memory> {
        put_number(out, self.tag)?;
        put_list(alloc, out, self.fields.as_slice())
    }
}

/// 0 for no result, else the number of its type and 1.
fn put_result(out: &mut Vec<u8>, answer: Option<TyId>) -> Result<(), Memory>
    requires { result_number answer < 2 ^ 32 }
    ensures { OnOk result (out.new.items ≡ out.old.items ++ number_bytes (result_number answer)) }
{
    match answer {
        None => put_number(out, 0),
        Some(number) => put_number(out, number + 1),
    }
}

impl Spelled for Signature {
    ghost spelling = { signature_bytes };

    ghost is_counted = { IsSignatureCounted };

    fn put(&self, alloc: Global, out: &mut Vec<u8>) -> Result<(), Memory> {
        put_result(out, self.result)?;
        put_list(alloc, out, self.params.as_slice())
    }
}

impl Spelled for MachineGlobal {
    ghost spelling = { global_bytes };

    ghost is_counted = { IsGlobalCounted };

    fn put(&self, alloc: Global, out: &mut Vec<u8>) -> Result<(), Memory> {
        put_number(out, self.name)?;
        put_number(out, self.ty)?;
        put_text(out, self.bytes.as_slice())
    }
}

fn put_code(alloc: Global, out: &mut Vec<u8>, code: &[Instr]) -> Result<(), Memory>
    requires { length (code_bytes code.now) < 2 ^ 32 }
    ensures { OnOk result (out.new.items ≡ out.old.items ++ text_bytes (code_bytes code.now)) }
{
    let bytes = encode(alloc, code)?;
    put_text(out, &bytes)
}

impl Spelled for MachineFunction {
    ghost spelling = { function_bytes };

    ghost is_counted = { IsFunctionCounted };

    fn put(&self, alloc: Global, out: &mut Vec<u8>) -> Result<(), Memory> {
        put_number(out, self.name)?;
        put_number(out, self.signature)?;
        put_number(out, self.locals)?;
        put_number(out, self.height)?;
        put_code(alloc, out, self.code.as_slice())
    }
}

impl Spelled for MachineSite {
    ghost spelling = { site_bytes };

    ghost is_counted = { λ _. Unit {0} };

    fn put(&self, alloc: Global, out: &mut Vec<u8>) -> Result<(), Memory> {
        put_number(out, self.function)?;
        put_number(out, self.ordinal)?;
        put_number(out, self.elem)
    }
}
