// The names of a program.

ghost use Rattle.std.specs.Prelude.{◌≡◌, IfOk, OnOk};
ghost use Rattle.c_check_scope.specs.Names.{with_name};
ghost use Rattle.c_check.specs.ProgramScope as spec;

use c_check_scope::names::Names;
use lu_base::Name;
use src_tree::program::Program;
use std::alloc::{AllocError, Global};

fn add_names(names: &mut Names, alloc: Global, more: &[Name]) -> Result<(), AllocError>
    ensures { OnOk result (names.new ≡ spec.all_named names.old more.now) }
{
    for name in more {
        names.add(alloc, name)?;
    }
    Ok(())
}

fn add_text(names: &mut Names, alloc: Global, text: &str) -> Result<(), AllocError>
    ensures { OnOk result (names.new ≡ with_name names.old text.now) }
{
    let name = Name::new(String::from_str(alloc, text)?);
    names.add(alloc, &name)?;
    Ok(())
}

fn add_built_ins(names: &mut Names, alloc: Global) -> Result<(), AllocError>
    ensures { OnOk result (names.new ≡ spec.all_named names.old spec.built_in_names) }
{
    add_text(names, alloc, "send")?;
    add_text(names, alloc, "malloc")?;
    add_text(names, alloc, "calloc")?;
    add_text(names, alloc, "free")?;
    add_text(names, alloc, "panic")
}

/// The names of a program, and then those of the built-in functions, each once.
#[tactic(auto, unfolding(crate::specs::ProgramScope::names_of))]
pub fn names_of(alloc: Global, program: &Program) -> Result<Names, AllocError>
    ensures { IfOk result (λ names. names ≡ spec.names_of program.now) }
{
    let mut names = Names::new(alloc);
    add_names(&mut names, alloc, program.names.as_slice())?;
    add_built_ins(&mut names, alloc)?;
    Ok(names)
}
