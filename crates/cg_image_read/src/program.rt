// The globals and functions of an image, and the program that it holds.

ghost use Rattle.std.specs.Prelude.{◌≡◌, ◌≤◌, ◌+◌, [], List, length, IfOk, slice_get};
ghost use Rattle.c_types.specs.Layout.{size_of};
ghost use Rattle.cg_image_read.specs.Answer.{Gives};
ghost use Rattle.cg_image_read.specs.Decoding.{decoded};
ghost use Rattle.cg_image_read.specs.Fields.{items_at, limited_at};
ghost use Rattle.cg_image_read.specs.Items.{code_at, code_in, room_at, sized_global_at, global_at, function_at, parameters_in};
ghost use Rattle.cg_image_read.specs.Reading.{globals_at, functions_at, sites_at, filters_at, program_at};

use crate::error::ImageError;
use crate::fields::{
    ReadItem, place, read_limited, split_bytes, split_entry, split_number, split_ranged, split_text,
};
use crate::items::SiteReader;
use bm_code::code::{MachineCode, MachineFunction, MachineGlobal, MachineSite};
use bm_isa::{Instr, IsaError, decode};
use c_types::{Parts, TyId, TypeTable};
use lu_base::limits::{ENTRIES, FILTERS, LOCALS, SIZE, STACK_HEIGHT};
use lu_base::{Bytes8, Name, Sequence};
use std::alloc::Global;

/// The code of bytes of an item that begins at `at`.
fn decode_code(alloc: Global, at: usize, text: &[u8]) -> Result<Sequence<Instr>, ImageError>
    ensures { Gives (λ code. code) result (code_in at (decoded text.now)) }
{
    match decode(alloc, text) {
        Ok(code) => Ok(Sequence::from_vec(code)),
        Err(IsaError::Bad { .. }) => Err(ImageError::Table { at }),
        Err(IsaError::Memory) => Err(ImageError::Memory),
    }
}

#[tactic(auto, unfolding(crate::specs::Items::code_at))]
fn read_code<'a>(
    alloc: Global,
    at: usize,
    bytes: &'a [u8],
) -> Result<(Sequence<Instr>, &'a [u8]), ImageError>
    ensures { Gives (λ x. (x.0, x.1.now)) result (code_at at bytes.now) }
{
    let (text, rest) = split_text(bytes)?;
    let code = decode_code(alloc, at, text)?;
    Ok((code, rest))
}

/// How many parameters the signature of a number has.
fn count_parameters(types: &Parts, signature: u32) -> usize
    ensures { result ≡ parameters_in (slice_get types.now.signatures signature) }
{
    match types.signatures.as_slice().get(signature as usize) {
        None => 0,
        Some(signature) => signature.params.as_slice().len(),
    }
}

/// Reads functions, of a program with so many names and these types.
#[derive(Clone, Copy)]
struct FunctionReader<'t> {
    names: usize,
    types: &'t Parts,
}

impl ReadItem<MachineFunction> for FunctionReader<'_> {
    ghost item_at = { λ r. function_at r.names r.types.now.signatures };

    #[tactic(auto, unfolding(crate::specs::Items::function_at))]
    fn read<'a>(
        &self,
        alloc: Global,
        at: usize,
        bytes: &'a [u8],
    ) -> Result<(MachineFunction, &'a [u8]), ImageError> {
        let (name, rest) = split_ranged(0, self.names, at, bytes)?;
        let (signature, rest) = split_entry(self.types.signatures.as_slice().len(), at, rest)?;
        let parameters = count_parameters(self.types, signature);
        let (locals, rest) = split_ranged(parameters, LOCALS, at, rest)?;
        let (height, rest) = split_ranged(0, STACK_HEIGHT as usize, at, rest)?;
        let (code, rest) = read_code(alloc, at, rest)?;
        Ok((
            MachineFunction {
                name,
                signature,
                locals,
                height,
                code,
            },
            rest,
        ))
    }
}

/// A type whose size and that of the globals before, `sum`, keep the limit.
#[tactic(auto, unfolding(crate::specs::Items::room_at))]
fn split_sized_type<'a>(
    types: &TypeTable,
    sum: u32,
    at: usize,
    bytes: &'a [u8],
) -> Result<(TyId, &'a [u8]), ImageError>
    requires { sum ≤ SIZE }
    ensures read { Gives (λ x. (x.0, x.1.now)) result (room_at types.now sum at bytes.now) }
    ensures room { IfOk result (λ x. sum + size_of types.now x.0 ≤ SIZE) }
{
    let (ty, rest) = split_entry(types.parts().types.as_slice().len(), at, bytes)?;
    if types.size_of(ty) <= SIZE - sum {
        return Ok((ty, rest));
    }
    Err(ImageError::Table { at })
}

/// A global behind globals of `sum` bytes.
#[tactic(auto, unfolding(crate::specs::Items::sized_global_at))]
fn read_global<'a>(
    alloc: Global,
    names: usize,
    types: &TypeTable,
    sum: u32,
    at: usize,
    bytes: &'a [u8],
) -> Result<(MachineGlobal, &'a [u8]), ImageError>
    requires { sum ≤ SIZE }
    ensures read { Gives (λ x. (x.0, x.1.now)) result (sized_global_at names types.now sum at bytes.now) }
    ensures room { IfOk result (λ x. sum + length x.0.bytes ≤ SIZE) }
{
    let (name, rest) = split_entry(names, at, bytes)?;
    let (ty, rest) = split_sized_type(types, sum, at, rest)?;
    let size = types.size_of(ty) as usize;
    let (count, rest) = split_ranged(size, size, at, rest)?;
    let (initial, rest) = split_bytes(count as usize, rest)?;
    let bytes = Bytes8::new(Vec::from_slice(alloc, initial)?);
    Ok((MachineGlobal { name, ty, bytes }, rest))
}

/// So many globals.
fn read_counted_globals<'a>(
    alloc: Global,
    names: usize,
    types: &TypeTable,
    end: usize,
    count: u32,
    bytes: &'a [u8],
) -> Result<(Sequence<MachineGlobal>, &'a [u8]), ImageError>
    ensures { Gives (λ x. (x.0, x.1.now)) result (items_at (global_at names types.now) end [] count bytes.now) }
{
    let mut globals = Vec::new(alloc);
    let mut sum = 0;
    let mut rest = bytes;
    for _ in 0..count {
        let (global, behind) = read_global(alloc, names, types, sum, place(end, rest), rest)?;
        sum += global.bytes.as_slice().len() as u32;
        globals.push(global)?;
        rest = behind;
    }
    Ok((Sequence::from_vec(globals), rest))
}

/// The globals of a list of `count`, of which at most `ENTRIES` may be.
#[tactic(auto, unfolding(crate::specs::Fields::limited_at))]
fn read_limited_globals<'a>(
    alloc: Global,
    names: usize,
    types: &TypeTable,
    end: usize,
    count: u32,
    bytes: &'a [u8],
) -> Result<(Sequence<MachineGlobal>, &'a [u8]), ImageError>
    ensures { Gives (λ x. (x.0, x.1.now)) result (limited_at (global_at names types.now) ENTRIES end count bytes.now) }
{
    if count as usize <= ENTRIES {
        return read_counted_globals(alloc, names, types, end, count, bytes);
    }
    let (_, rest) = read_counted_globals(alloc, names, types, end, ENTRIES as u32, bytes)?;
    Err(ImageError::Table {
        at: place(end, rest),
    })
}

/// The list of globals, of a program with so many names.
#[tactic(auto, unfolding(crate::specs::Reading::globals_at))]
fn read_globals<'a>(
    alloc: Global,
    end: usize,
    names: usize,
    types: &TypeTable,
    bytes: &'a [u8],
) -> Result<(Sequence<MachineGlobal>, &'a [u8]), ImageError>
    ensures { Gives (λ x. (x.0, x.1.now)) result (globals_at end names types.now bytes.now) }
{
    let (count, rest) = split_number(bytes)?;
    read_limited_globals(alloc, names, types, end, count, rest)
}

/// The list of functions, of a program with so many names.
#[tactic(auto, unfolding(crate::specs::Reading::functions_at))]
fn read_functions<'a>(
    alloc: Global,
    end: usize,
    names: usize,
    types: &Parts,
    bytes: &'a [u8],
) -> Result<(Sequence<MachineFunction>, &'a [u8]), ImageError>
    ensures { Gives (λ x. (x.0, x.1.now)) result (functions_at end names types.now bytes.now) }
{
    let (count, rest) = split_number(bytes)?;
    let reader = FunctionReader { names, types };
    let most = (ENTRIES + FILTERS) as u32;
    read_limited(alloc, &reader, most, end, count, rest)
}

/// The list of sites, of a program with so many functions and types.
#[tactic(auto, unfolding(crate::specs::Reading::sites_at))]
fn read_sites<'a>(
    alloc: Global,
    end: usize,
    functions: usize,
    types: usize,
    bytes: &'a [u8],
) -> Result<(Sequence<MachineSite>, &'a [u8]), ImageError>
    ensures { Gives (λ x. (x.0, x.1.now)) result (sites_at end functions types bytes.now) }
{
    let (count, rest) = split_number(bytes)?;
    let reader = SiteReader { functions, types };
    read_limited(alloc, &reader, ENTRIES as u32, end, count, rest)
}

/// How many hidden functions there are, where nothing follows.
#[tactic(auto, unfolding(crate::specs::Reading::filters_at))]
fn read_filters(end: usize, functions: usize, bytes: &[u8]) -> Result<u32, ImageError>
    ensures { Gives (λ count. count) result (filters_at end functions bytes.now) }
{
    let most = FILTERS.min(functions);
    let (filters, rest) = split_ranged(0, most, place(end, bytes), bytes)?;
    if !rest.is_empty() {
        return Err(ImageError::Extra);
    }
    Ok(filters)
}

/// The program of these names and types, whose globals, functions and sites are at the front and nothing behind them.
#[tactic(auto, unfolding(crate::specs::Reading::program_at))]
pub(crate) fn read_program(
    alloc: Global,
    end: usize,
    names: Sequence<Name>,
    types: TypeTable,
    bytes: &[u8],
) -> Result<MachineCode, ImageError>
    ensures { Gives (λ code. code) result (program_at end names types bytes.now) }
{
    let name_count = names.as_slice().len();
    let (globals, rest) = read_globals(alloc, end, name_count, &types, bytes)?;
    let (functions, rest) = read_functions(alloc, end, name_count, types.parts(), rest)?;
    let function_count = functions.as_slice().len();
    let type_count = types.parts().types.as_slice().len();
    let (sites, rest) = read_sites(alloc, end, function_count, type_count, rest)?;
    let filters = read_filters(end, function_count, rest)?;
    Ok(MachineCode {
        names,
        types,
        functions,
        globals,
        sites,
        filters,
    })
}
