// Texts compiled, started and walked, with ample memory.

ghost use Rattle.std.specs.Prelude.{◌≡◌, [], IfOk};
ghost use Rattle.std.specs.Bool.{OnTrue};
ghost use Rattle.c_types.specs.Words.{Tells};
ghost use Rattle.lu_pair.specs.Tags.{HasFewEntries};
ghost use Rattle.src_meaning.specs.Valid.{IsValid};
ghost use Rattle.bm_code.specs.Accepted.{HasParameters, IsAccepted};

use bm_code::code::MachineCode;
use bm_code::stop::Stop;
use bm_cpu::machine::Machine;
use bm_mem::{Bytes, VecBytes};
use c_check::check::check;
use c_lex::lex;
use c_parse::program::parse;
use cg_program::code::Code;
use cg_program::compiler::compile;
use lu_base::limits::CALL_TICKS;
use lu_image::{Pairing, Renames};
use lu_pair::pair;
use lu_walk::{PairedPrograms, Walk};
use sqlite_items::Items;
use src_tree::program::Program;
use std::alloc::{AllocError, Global};
use std::test::Fail;

/// The program of a text.
fn program_of(alloc: Global, text: &str) -> Result<Program, Fail>
    ensures { IfOk result IsValid }
{
    let tokens = lex(alloc, text.as_bytes())?;
    let tree = parse(alloc, tokens.as_slice())?;
    match check(alloc, tree.as_slice()) {
        Ok(program) => Ok(program),
        Err(_) => Err("the text is refused".into()),
    }
}

/// The code of a program, without filters.
fn code_of(alloc: Global, program: &Program) -> Result<Code, Fail>
    requires { IsValid program.now }
{
    let filters = Items::new(alloc);
    match compile(alloc, program, filters) {
        Ok(code) => Ok(code),
        Err(_) => Err("the program is not compiled".into()),
    }
}

/// The number of the function of a name.
fn number_of(code: &MachineCode, name: &str) -> Result<u32, Fail> {
    let names = code.names.as_slice();
    let mut number: u32 = 0;
    for function in code.functions.as_slice() {
        if let Some(found) = names.get(function.name as usize)
            && found.as_str() == name
        {
            return Ok(number);
        }
        number = number.saturating_add(1);
    }
    Err("there is no such function".into())
}

/// Whether a function has no parameters.
fn is_plain(code: &MachineCode, number: u32) -> bool
    ensures { OnTrue result (HasParameters code.now number 0) }
{
    let Some(function) = code.functions.as_slice().get(number as usize) else {
        return false;
    };
    let signatures = code.types.parts().signatures.as_slice();
    let Some(signature) = signatures.get(function.signature as usize) else {
        return false;
    };
    signature.params.as_slice().is_empty()
}

/// Whether each list of a program's globals, functions and sites is shorter than there are numbers of 32 bits.
fn has_few_entries(program: &Program) -> bool
    ensures { Tells result (HasFewEntries program.now) }
{
    program.globals.as_slice().len() <= u32::MAX as usize
        && program.functions.as_slice().len() <= u32::MAX as usize
        && program.sites.as_slice().len() <= u32::MAX as usize
}

/// The pairing of two programs by their names.
fn paired(alloc: Global, old: &Program, new: &Program) -> Result<Pairing, Fail>
    requires old { IsValid old.now }
    requires new { IsValid new.now }
{
    if !has_few_entries(old) || !has_few_entries(new) {
        return Err("too many entries".into());
    }
    let renames = Renames::new(alloc, Vec::new(alloc))?.ok_or("a name twice")?;
    Ok(pair(alloc, old, new, &renames).ok().ok_or("refused")?)
}

/// Calls `init` to its end.
fn start(machine: &mut Machine<VecBytes>, code: &MachineCode) -> Result<(), Fail>
    requires { machine.old.code ≡ code.now }
{
    let number = number_of(code, "init")?;
    if !is_plain(code, number) || machine.running() {
        return Err("the function can't be called".into());
    }
    machine.start(number, &[]);
    match machine.run(CALL_TICKS) {
        Stop::Returned(_) => Ok(()),
        _ => Err("the call did not return".into()),
    }
}

/// The needed objects of a process.
fn walked(
    alloc: Global,
    machine: &Machine<VecBytes>,
    programs: &PairedPrograms,
) -> Result<Vec<u32>, Fail> {
    let rows = machine.objects();
    let memory = machine.memory();
    let mut walk = Walk::begin(alloc, rows, programs)?;
    for _object in 0..rows.len() {
        if walk.next().is_none() {
            break;
        }
        let _state = walk.step(alloc, memory, rows, programs)?;
    }
    let mut needed = Vec::new(alloc);
    needed.extend_from_slice(walk.needed())?;
    Ok(needed)
}

/// The objects of a code's process, once its `init` has run, that an update by these programs needs.
fn needed_of(alloc: Global, code: &MachineCode, programs: &PairedPrograms) -> Result<Vec<u32>, Fail>
    requires { IsAccepted code.now }
{
    let mut machine: Machine<VecBytes> = Machine::new(alloc, code, VecBytes::fresh(alloc))?;
    machine.set_world(alloc, 1, &[1, 2])?;
    start(&mut machine, code)?;
    walked(alloc, &machine, programs)
}

/// The same, of two programs that are paired.
fn needed_by(
    alloc: Global,
    code: &MachineCode,
    pairing: &Pairing,
    old: &Program,
    new: &Program,
) -> Result<Vec<u32>, Fail>
    requires { IsAccepted code.now }
{
    let programs = PairedPrograms {
        pairing,
        old_names: old.names.as_slice(),
        new_names: new.names.as_slice(),
    };
    needed_of(alloc, code, &programs)
}

/// The same, of an old program and a new one.
fn needed_between(alloc: Global, old: &Program, new: &Program) -> Result<Vec<u32>, Fail>
    requires old { IsValid old.now }
    requires new { IsValid new.now }
{
    let pairing = paired(alloc, old, new)?;
    let code = code_of(alloc, old)?;
    needed_by(alloc, code.machine(), &pairing, old, new)
}

/// The objects of an old program that an update to a new one needs, once `init` of the old one has run.
pub fn needed(alloc: Global, old: &str, new: &str) -> Result<Vec<u32>, Fail> {
    let old = program_of(alloc, old)?;
    let new = program_of(alloc, new)?;
    needed_between(alloc, &old, &new)
}
