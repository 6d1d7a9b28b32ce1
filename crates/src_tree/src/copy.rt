// Copies of programs.

ghost use Rattle.std.specs.Prelude.{◌≡◌, IfOk};

use crate::copy_expr::copy_expr;
use crate::copy_stmt::copy_statements;
use crate::program::{Function, Global as GlobalVariable, Init, Program};
use c_types::TypeTable;
use lu_base::{Memory, Name};
use sqlite_items::Items;
use std::alloc::Global;

fn copy_names(alloc: Global, names: &[Name]) -> Result<Items<Name>, Memory>
    ensures { IfOk result (λ copies. copies ≡ names.now) }
{
    let mut copies = Items::new(alloc);
    for name in names {
        copies.push(name.copy(alloc)?)?;
    }
    Ok(copies)
}

fn copy_types(alloc: Global, types: &TypeTable) -> Result<TypeTable, Memory>
    ensures { IfOk result (λ copy. copy ≡ types.now) }
{
    match types.copy(alloc) {
        Ok(copy) => Ok(copy),
        Err(_) => Err(Memory),
    }
}

#[cycle(copy_init)]
fn copy_init(alloc: Global, init: &Init) -> Result<Init, Memory>
    ensures { IfOk result (λ copy. copy ≡ init.now) }
{
    match init {
        Init::Zero => Ok(Init::Zero),
        Init::One(e) => Ok(Init::One(copy_expr(alloc, e)?)),
        Init::Text(bytes) => Ok(Init::Text(bytes.copy(alloc)?)),
        Init::List(inits) => Ok(Init::List(copy_inits(alloc, inits.as_slice())?)),
    }
}

#[cycle(copy_init)]
fn copy_inits(alloc: Global, inits: &[Init]) -> Result<Items<Init>, Memory>
    ensures { IfOk result (λ copies. copies ≡ inits.now) }
{
    let mut copies = Items::new(alloc);
    for init in inits {
        copies.push(copy_init(alloc, init)?)?;
    }
    Ok(copies)
}

fn copy_globals(alloc: Global, globals: &[GlobalVariable]) -> Result<Items<GlobalVariable>, Memory>
    ensures { IfOk result (λ copies. copies ≡ globals.now) }
{
    let mut copies = Items::new(alloc);
    for global in globals {
        copies.push(GlobalVariable {
            name: global.name,
            ty: global.ty,
            init: copy_init(alloc, &global.init)?,
        })?;
    }
    Ok(copies)
}

fn copy_function(alloc: Global, function: &Function) -> Result<Function, Memory>
    ensures { IfOk result (λ copy. copy ≡ function.now) }
{
    Ok(Function {
        name: function.name,
        params: Items::from_slice(alloc, function.params.as_slice())?,
        ret: function.ret,
        locals: Items::from_slice(alloc, function.locals.as_slice())?,
        body: copy_statements(alloc, function.body.as_slice())?,
    })
}

fn copy_functions(alloc: Global, functions: &[Function]) -> Result<Items<Function>, Memory>
    ensures { IfOk result (λ copies. copies ≡ functions.now) }
{
    let mut copies = Items::new(alloc);
    for function in functions {
        copies.push(copy_function(alloc, function)?)?;
    }
    Ok(copies)
}

impl Program {
    /// An equal program.
    pub fn copy(&self, alloc: Global) -> Result<Program, Memory>
        ensures { IfOk result (λ copy. copy ≡ self.now) }
    {
        Ok(Program {
            names: copy_names(alloc, self.names.as_slice())?,
            types: copy_types(alloc, &self.types)?,
            globals: copy_globals(alloc, self.globals.as_slice())?,
            functions: copy_functions(alloc, self.functions.as_slice())?,
            sites: Items::from_slice(alloc, self.sites.as_slice())?,
        })
    }
}
