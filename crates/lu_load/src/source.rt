// The code of the sources that a plan names.

ghost use Rattle.std.specs.Prelude.{◌≡◌, length, IfOk, IfSome, IsTrue};
ghost use Rattle.lu_spec.specs.Fault.{IsCaused};
ghost use Rattle.c_types.specs.Numbering.{is_pointer_size};
ghost use Rattle.src_meaning.specs.Valid.{IsValid};
ghost use Rattle.lu_load.specs.Programs.{pointer_size, sources_of, function_text, CodeAnswers, SourceAnswers, SourcesAnswers};

use crate::LoadError;
use crate::error::of_source;
use cg_program::code::Code;
use cg_program::compiler::compile;
use cg_program::error::CompileError;
use lu_base::{Memory, Name, Sequence, Shelf};
use lu_load_lines::LoadRefusal;
use lu_source::read_source;
use plan_file::{Plan, Pointers};
use sqlite_items::Items;
use src_tree::program::Program;
use std::alloc::Global;

/// A source that a plan names.
#[derive(Debug, Drop)]
pub struct SourceFile {
    /// The name of its file.
    pub file: Name,
    /// The size of its program's pointers.
    pub pointers: Pointers,
}

fn pointer_size(pointers: Pointers) -> u32
    ensures value { result ≡ pointer_size pointers }
    ensures size { IsTrue (is_pointer_size result) }
{
    match pointers {
        Pointers::Narrow => 4,
        Pointers::Wide => 8,
    }
}

/// The sources of a plan: those of its servers, and behind them those of its updates.
pub fn sources_of(alloc: Global, plan: &Plan) -> Result<Sequence<SourceFile>, Memory>
    ensures { IfOk result (λ sources. sources ≡ sources_of plan.now) }
{
    let mut sources = Sequence::from_vec(Vec::new(alloc));
    for server in plan.server.as_slice() {
        sources.push(SourceFile {
            file: server.source.copy(alloc)?,
            pointers: server.pointers,
        })?;
    }
    for update in plan.update.as_slice() {
        sources.push(SourceFile {
            file: update.source.copy(alloc)?,
            pointers: update.pointers,
        })?;
    }
    Ok(sources)
}

/// The name of a function; empty where there is none.
fn function_text(alloc: Global, program: &Program, number: u32) -> Result<Name, Memory>
    ensures { IfOk result (λ text. text ≡ function_text program.now number) }
{
    if let Some(function) = program.functions.as_slice().get(number as usize)
        && let Some(name) = program.names.as_slice().get(function.name as usize)
    {
        name.copy(alloc)
    } else {
        Ok(Name::new(String::new(alloc)))
    }
}

fn too_long(
    alloc: Global,
    source: &SourceFile,
    program: &Program,
    number: u32,
) -> Result<LoadRefusal, Memory>
    ensures { IfOk result (λ refusal. refusal ≡ LoadRefusal.TooLong source.now.file (function_text program.now number)) }
{
    Ok(LoadRefusal::TooLong {
        file: source.file.copy(alloc)?,
        function: function_text(alloc, program, number)?,
    })
}

/// The code of a source's program, with no filter.
fn compiled(alloc: Global, source: &SourceFile, program: &Program) -> Result<Code, LoadError>
    requires { IsValid program.now }
    ensures { CodeAnswers source.now program.now result }
{
    match compile(alloc, program, Items::new(alloc)) {
        Ok(code) => Ok(code),
        Err(CompileError::TooLong { function }) => {
            Err(LoadError::Refused(too_long(alloc, source, program, function)?))
        }
        Err(CompileError::Memory) => Err(LoadError::Memory),
    }
}

/// The code of a source, with no filter.
pub fn load_source<S: Shelf>(
    alloc: Global,
    source: &SourceFile,
    shelf: &mut S,
) -> Result<Code, LoadError>
    ensures kept { S.holds shelf.new ≡ S.holds shelf.old }
    ensures cause { IsCaused LoadError.ReadFault (S.faults shelf.old) (S.faults shelf.new) result }
    ensures answer { IfSome (S.holds shelf.old) (λ files. SourceAnswers files source.now result) }
{
    let pointer = pointer_size(source.pointers);
    match read_source(alloc, source.file.as_str(), pointer, shelf) {
        Ok(program) => compiled(alloc, source, &program),
        Err(error) => Err(of_source(alloc, &source.file, error)),
    }
}

/// The code of each source in turn. No source is read behind one that is refused, and each is compiled before the next one
/// is read.
pub fn load_sources<S: Shelf>(
    alloc: Global,
    sources: &[SourceFile],
    shelf: &mut S,
) -> Result<Sequence<Code>, LoadError>
    ensures kept { S.holds shelf.new ≡ S.holds shelf.old }
    ensures cause { IsCaused LoadError.ReadFault (S.faults shelf.old) (S.faults shelf.new) result }
    ensures answer { IfSome (S.holds shelf.old) (λ files. SourcesAnswers files sources.now result) }
    ensures each { IfOk result (λ codes. length codes ≡ length sources.now) }
{
    let mut codes = Sequence::from_vec(Vec::new(alloc));
    for source in sources {
        codes.push(load_source(alloc, source, shelf)?)?;
    }
    Ok(codes)
}
