// From an image to the program.

ghost use Rattle.std.specs.Prelude.{◌≡◌, IfOk, MatchResult};
ghost use Rattle.bm_code.specs.Accepted.{IsAccepted};
ghost use Rattle.cg_image.specs.Image.{image_bytes};
ghost use Rattle.cg_image.specs.Short.{AreCounted};
ghost use Rattle.cg_image_read.specs.HasImage.{HasImage};
ghost use Rattle.cg_image_read.specs.Reading.{Answers, IsBuiltUnless};

use crate::error::ImageError;
use crate::program::read_program;
use crate::tables::{Tables, read_tables};
use bm_code::code::MachineCode;
use c_types::{BuildError, Parts, TypeTable, well_numbered};
use std::alloc::Global;

/// The table of types, or the refusal of the list of types that begins at `at`.
fn build_types(alloc: Global, at: usize, types: Parts) -> Result<TypeTable, ImageError>
    ensures { IsBuiltUnless types at result }
{
    if !well_numbered(&types) {
        return Err(ImageError::Table { at });
    }
    match TypeTable::build(alloc, types) {
        Ok(table) => Ok(table),
        Err(BuildError::Memory) => Err(ImageError::Memory),
        Err(_) => Err(ImageError::Table { at }),
    }
}

/// The program whose image the bytes are, or the first refusal that reading them meets.
fn read_whole(alloc: Global, bytes: &[u8]) -> Result<MachineCode, ImageError>
    ensures { Answers bytes.now result }
{
    let (tables, rest) = read_tables(alloc, bytes)?;
    let Tables { names, types, at } = tables;
    let types = build_types(alloc, at, types)?;
    read_program(alloc, bytes.len(), names, types, rest)
}

/// The program whose image the bytes are. Other bytes are refused where reading first fails.
pub fn read_image(alloc: Global, bytes: &[u8]) -> Result<MachineCode, ImageError>
    ensures read { Answers bytes.now result }
    ensures image { IfOk result (λ code. image_bytes code ≡ bytes.now) }
    ensures whole { IfOk result (HasImage 4) }
    ensures accepted { IfOk result IsAccepted }
    ensures counted { IfOk result AreCounted }

    // The image of any program is read as that.
    ensures again { (code : MachineCode) → HasImage 4 code → image_bytes code ≡ bytes.now
        → MatchResult result (λ found. found ≡ code) (λ e. e ≡ ImageError.Memory) }
{
    read_whole(alloc, bytes)
}
