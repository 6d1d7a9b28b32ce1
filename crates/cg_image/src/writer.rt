// From a program to its image.

ghost use Rattle.std.specs.Prelude.{◌≡◌, ◌++◌, IfOk, OnOk};
ghost use Rattle.cg_image.specs.Image.{image_bytes, magic, number_bytes, tables_bytes, program_bytes, version_of};
ghost use Rattle.cg_image.specs.Short.{AreCounted};

use crate::spelled::{put_list, put_number};
use bm_code::code::MachineCode;
use lu_base::Memory;
use std::alloc::Global;

/// The first bytes of an image, `LUIM`.
pub const MAGIC: [u8; 4] = *b"LUIM";

/// The version of an image by the bytes of a pointer.
fn version_of(pointer: u32) -> u32
    ensures { result ≡ version_of pointer }
{
    if pointer == 8 { 2 } else { 1 }
}

fn put_tables(alloc: Global, out: &mut Vec<u8>, code: &MachineCode) -> Result<(), Memory>
    requires { AreCounted code.now }
    ensures { OnOk result (out.new.items ≡ out.old.items ++ tables_bytes code.now) }
{
    let parts = code.types.parts();
    put_list(alloc, out, code.names.as_slice())?;
    put_list(alloc, out, parts.types.as_slice())?;
    put_list(alloc, out, parts.structs.as_slice())?;
    put_list(alloc, out, parts.unions.as_slice())?;
    put_list(alloc, out, parts.signatures.as_slice())
}

fn put_program(alloc: Global, out: &mut Vec<u8>, code: &MachineCode) -> Result<(), Memory>
    requires { AreCounted code.now }
    ensures { OnOk result (out.new.items ≡ out.old.items ++ program_bytes code.now) }
{
    put_list(alloc, out, code.globals.as_slice())?;
    put_list(alloc, out, code.functions.as_slice())?;
    put_list(alloc, out, code.sites.as_slice())?;
    put_number(out, code.filters)
}

/// The image of a program.
#[tactic(auto, unfolding(crate::specs::Image::image_bytes))]
pub fn write_image(alloc: Global, code: &MachineCode) -> Result<Vec<u8>, Memory>
    requires { AreCounted code.now }
    ensures { IfOk result (λ image. image.items ≡ image_bytes code.now) }
{
    let mut out = Vec::new(alloc);
    out.extend_from_slice(&MAGIC)?;
    put_number(&mut out, version_of(code.types.pointer()))?;
    put_tables(alloc, &mut out, code)?;
    put_program(alloc, &mut out, code)?;
    Ok(out)
}
