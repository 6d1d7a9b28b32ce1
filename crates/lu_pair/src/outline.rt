// What an update needs of a program.

ghost use Rattle.std.specs.Prelude.{◌≡◌, map, IfOk};
ghost use Rattle.lu_image.specs.Pairing.{outline_of};
ghost use Rattle.lu_pair.specs.Outlines.{signature_of};

use c_types::{Sequence, Signature, TyId, TypeTable};
use lu_base::Memory;
use lu_image::Outline;
use src_tree::program::{Function, Global as GlobalVariable, Program, Site};
use std::alloc::Global;

fn copy_types(alloc: Global, types: &TypeTable) -> Result<TypeTable, Memory>
    ensures { IfOk result (λ copy. copy ≡ types.now) }
{
    match types.copy(alloc) {
        Ok(copy) => Ok(copy),
        Err(_) => Err(Memory),
    }
}

fn types_of_globals(alloc: Global, globals: &[GlobalVariable]) -> Result<Vec<TyId>, Memory>
    ensures { IfOk result (λ types. types.items ≡ map (λ g. g.ty) globals.now) }
{
    let mut types = Vec::new(alloc);
    for global in globals {
        types.push(global.ty)?;
    }
    Ok(types)
}

fn signature_of(alloc: Global, function: &Function) -> Result<Signature, Memory>
    ensures { IfOk result (λ signature. signature ≡ signature_of function.now) }
{
    Ok(Signature {
        result: function.ret,
        params: Sequence::from_vec(Vec::from_slice(alloc, function.params.as_slice())?),
    })
}

fn types_of_functions(alloc: Global, functions: &[Function]) -> Result<Vec<Signature>, Memory>
    ensures { IfOk result (λ types. types.items ≡ map signature_of functions.now) }
{
    let mut types = Vec::new(alloc);
    for function in functions {
        types.push(signature_of(alloc, function)?)?;
    }
    Ok(types)
}

fn types_of_sites(alloc: Global, sites: &[Site]) -> Result<Vec<TyId>, Memory>
    ensures { IfOk result (λ types. types.items ≡ map (λ s. s.elem) sites.now) }
{
    let mut types = Vec::new(alloc);
    for site in sites {
        types.push(site.elem)?;
    }
    Ok(types)
}

/// The types of a program and of its entries.
pub fn outline_of(alloc: Global, program: &Program) -> Result<Outline, Memory>
    ensures { IfOk result (λ outline. outline ≡ outline_of program.now) }
{
    Ok(Outline {
        types: copy_types(alloc, &program.types)?,
        globals: Sequence::from_vec(types_of_globals(alloc, program.globals.as_slice())?),
        functions: Sequence::from_vec(types_of_functions(alloc, program.functions.as_slice())?),
        sites: Sequence::from_vec(types_of_sites(alloc, program.sites.as_slice())?),
    })
}
