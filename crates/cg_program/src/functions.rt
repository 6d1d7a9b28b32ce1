// The machine's functions.

ghost use Rattle.std.specs.Prelude.{◌≡◌, ◌≤◌, ◌++◌, map, length, IfOk};
ghost use Rattle.cg_expr.specs.Seen.{seen};
ghost use Rattle.cg_stmt.specs.Functions.{machine_function, filter_function};
ghost use Rattle.cg_program.specs.Compiled.{is_long, first_long};

use bm_code::code::MachineFunction;
use c_types::Sequence;
use cg_expr::target::Target;
use cg_stmt::functions::{compile_filter, compile_function};
use cg_stmt::is_too_long;
use lu_base::Memory;
use lu_base::limits::ENTRIES;
use src_tree::expr::TypedExpr;
use src_tree::program::Function;
use std::alloc::Global;

/// Whether a function's weight passes the greatest.
fn is_long(function: &Function) -> bool
    ensures { result ≡ is_long function.now }
{
    is_too_long(function)
}

/// The number of the first function that is too long.
pub fn first_long(functions: &[Function]) -> Option<u32>
    requires { length functions.now ≤ ENTRIES }
    ensures { result ≡ first_long functions.now }
{
    for (number, function) in functions.iter().enumerate() {
        if is_long(function) {
            return Some(number as u32);
        }
    }
    None
}

/// The program's functions, and behind them a hidden one for each filter.
pub fn machine_functions(
    alloc: Global,
    at: &Target,
    filters: &[TypedExpr],
) -> Result<Sequence<MachineFunction>, Memory>
    ensures { IfOk result (λ functions. functions ≡ map (machine_function (seen at.now)) at.now.program.now.functions
        ++ map (filter_function (seen at.now) (length at.now.program.now.names)) filters.now) }
{
    let mut functions = Sequence::from_vec(Vec::new(alloc));
    for function in at.program.functions.as_slice() {
        functions.push(compile_function(alloc, at, function)?)?;
    }
    for filter in filters {
        functions.push(compile_filter(alloc, at, filter)?)?;
    }
    Ok(functions)
}
