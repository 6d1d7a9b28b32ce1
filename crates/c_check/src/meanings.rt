// What the names of a program mean.

ghost use Rattle.std.specs.Prelude.{◌≡◌, IfOk, OnOk, None, replicate};
ghost use Rattle.c_check.specs.ProgramScope as spec;

use c_check_expr::signatures::signature_number;
use c_check_scope::names::Names;
use c_check_scope::numbers::next;
use c_check_scope::scope::{BuiltIn, Meaning, set_meaning};
use c_check_scope::types::Types;
use c_types::{Sequence, Signature};
use lu_base::Name;
use sqlite_items::Items;
use src_tree::program::{Function, Global as Variable, Program};
use std::alloc::{AllocError, Global};

fn nothing_yet(alloc: Global, count: usize) -> Result<Items<Option<Meaning>>, AllocError>
    ensures { IfOk result (λ meanings. meanings ≡ replicate count None) }
{
    Ok(Items::from_vec(vec![in alloc; None; count]?))
}

fn add_globals(
    meanings: &mut Items<Option<Meaning>>,
    globals: &[Variable],
) -> Result<(), AllocError>
    ensures { OnOk result (meanings.new ≡ spec.with_globals meanings.old 0 globals.now) }
{
    let mut number = 0u32;
    for global in globals {
        set_meaning(
            meanings,
            global.name as usize,
            Meaning::Global(number, global.ty),
        );
        number = next(number)?;
    }
    Ok(())
}

fn function_meaning(
    alloc: Global,
    types: &Types,
    number: u32,
    function: &Function,
) -> Result<Meaning, AllocError>
    ensures { IfOk result (λ meaning. meaning ≡ spec.function_meaning types.now number function.now) }
{
    let params = Vec::from_slice(alloc, function.params.as_slice())?;
    let signature = Signature {
        result: function.ret,
        params: Sequence::from_vec(params),
    };
    Ok(Meaning::Function(number, signature_number(types, &signature)))
}

fn add_functions(
    meanings: &mut Items<Option<Meaning>>,
    alloc: Global,
    types: &Types,
    functions: &[Function],
) -> Result<(), AllocError>
    ensures { OnOk result (meanings.new ≡ spec.with_functions types.now meanings.old 0 functions.now) }
{
    let mut number = 0u32;
    for function in functions {
        let meaning = function_meaning(alloc, types, number, function)?;
        set_meaning(meanings, function.name as usize, meaning);
        number = next(number)?;
    }
    Ok(())
}

#[tactic(auto, unfolding(crate::specs::ProgramScope::with_built_in))]
fn add_built_in(
    meanings: &mut Items<Option<Meaning>>,
    alloc: Global,
    names: &Names,
    text: &str,
    which: BuiltIn,
) -> Result<(), AllocError>
    ensures { OnOk result (meanings.new ≡ spec.with_built_in names.now meanings.old text.now which) }
{
    let name = Name::new(String::from_str(alloc, text)?);
    if let Some(number) = names.number_of(&name) {
        set_meaning(meanings, number, Meaning::BuiltIn(which));
    }
    Ok(())
}

fn add_allocations(
    meanings: &mut Items<Option<Meaning>>,
    alloc: Global,
    names: &Names,
) -> Result<(), AllocError>
    ensures { OnOk result (meanings.new ≡ spec.with_allocations names.now meanings.old) }
{
    add_built_in(meanings, alloc, names, "malloc", BuiltIn::Malloc)?;
    add_built_in(meanings, alloc, names, "calloc", BuiltIn::Calloc)?;
    add_built_in(meanings, alloc, names, "free", BuiltIn::Free)
}

fn add_built_ins(
    meanings: &mut Items<Option<Meaning>>,
    alloc: Global,
    names: &Names,
) -> Result<(), AllocError>
    ensures { OnOk result (meanings.new ≡ spec.with_built_ins names.now meanings.old) }
{
    add_allocations(meanings, alloc, names)?;
    add_built_in(meanings, alloc, names, "send", BuiltIn::Send)?;
    add_built_in(meanings, alloc, names, "panic", BuiltIn::Panic)
}

/// What each name means: a global, a function or a built-in function of the program, or nothing.
#[tactic(auto, unfolding(crate::specs::ProgramScope::meanings_of))]
pub fn meanings_of(
    alloc: Global,
    program: &Program,
    types: &Types,
    names: &Names,
) -> Result<Items<Option<Meaning>>, AllocError>
    requires { types.now ≡ program.now.types }
    ensures { IfOk result (λ meanings. meanings ≡ spec.meanings_of program.now names.now) }
{
    let mut meanings = nothing_yet(alloc, names.len())?;
    add_globals(&mut meanings, program.globals.as_slice())?;
    add_functions(&mut meanings, alloc, types, program.functions.as_slice())?;
    add_built_ins(&mut meanings, alloc, names)?;
    Ok(meanings)
}
