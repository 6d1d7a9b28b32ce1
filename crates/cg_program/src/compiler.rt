// The compiler.

ghost use Rattle.std.specs.Prelude.{◌≡◌, None, map, IfOk, IfErr, OnOk};
ghost use Rattle.cg_program.specs.Compiled.{IsSource, source, first_long, machine_code, machine_site};
ghost use Rattle.cg_program.specs.Refusals.{Refuses};

use crate::code::Code;
use crate::error::CompileError;
use crate::functions::{first_long, machine_functions};
use crate::globals::{addresses, machine_globals};
use bm_code::code::{MachineCode, MachineSite};
use c_types::{Sequence, TypeTable};
use cg_expr::target::Target;
use cg_stmt::functions::count_of;
use lu_base::{Memory, Name};
use sqlite_items::Items;
use src_model::initial_store;
use src_tree::expr::TypedExpr;
use src_tree::program::{Program, Site};
use std::alloc::Global;

fn copy_names(alloc: Global, names: &[Name]) -> Result<Sequence<Name>, Memory>
    ensures { IfOk result (λ copies. copies ≡ names.now) }
{
    let mut copies = Sequence::from_vec(Vec::new(alloc));
    for name in names {
        copies.push(name.copy(alloc)?)?;
    }
    Ok(copies)
}

fn copy_types(alloc: Global, types: &TypeTable) -> Result<TypeTable, Memory>
    ensures { IfOk result (λ copy. copy ≡ types.now) }
{
    match types.copy(alloc) {
        Ok(copy) => Ok(copy),
        Err(_) => Err(Memory),
    }
}

fn machine_sites(alloc: Global, sites: &[Site]) -> Result<Sequence<MachineSite>, Memory>
    ensures { IfOk result (λ copies. copies ≡ map machine_site sites.now) }
{
    let mut copies = Sequence::from_vec(Vec::new(alloc));
    for site in sites {
        copies.push(MachineSite {
            function: site.function,
            ordinal: site.ordinal,
            elem: site.elem,
        })?;
    }
    Ok(copies)
}

/// The machine's program of a program and its filters.
fn machine_code(alloc: Global, p: &Program, filters: &[TypedExpr]) -> Result<MachineCode, Memory>
    ensures { IfOk result (λ code. code ≡ machine_code (source p.now filters.now)) }
{
    let store = initial_store(alloc, p)?;
    let starts = addresses(alloc, &p.types, &store)?;
    let starts = starts.as_slice();
    let at = Target { program: p, starts };
    let names = copy_names(alloc, p.names.as_slice())?;
    let types = copy_types(alloc, &p.types)?;
    let functions = machine_functions(alloc, &at, filters)?;
    let globals = machine_globals(alloc, p, starts, &store)?;
    let sites = machine_sites(alloc, p.sites.as_slice())?;
    Ok(MachineCode {
        names,
        types,
        functions,
        globals,
        sites,
        filters: count_of(filters.len())?,
    })
}

fn compiled(alloc: Global, p: &Program, filters: Items<TypedExpr>) -> Result<Code, Memory>
    requires { IsSource (source p.now filters) }
    ensures { IfOk result (λ code. code ≡ source p.now filters) }
{
    let machine = machine_code(alloc, p, filters.as_slice())?;
    let program = p.copy(alloc)?;
    Ok(Code::of(machine, program, filters))
}

/// The code of a program, with a hidden function for each filter behind the program's functions. The code keeps a copy of
/// the program, and the filters.
pub fn compile(alloc: Global, p: &Program, filters: Items<TypedExpr>) -> Result<Code, CompileError>
    requires { IsSource (source p.now filters) }
    ensures code { IfOk result (λ code. code ≡ source p.now filters) }
    ensures short { OnOk result (first_long p.now.functions ≡ None) }
    ensures refused { IfErr result (Refuses p.now) }
{
    if let Some(function) = first_long(p.functions.as_slice()) {
        return Err(CompileError::TooLong { function });
    }
    Ok(compiled(alloc, p, filters)?)
}
