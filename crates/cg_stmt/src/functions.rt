// The code of functions and of filters.

ghost use Rattle.std.specs.Prelude.{◌≡◌, ◌++◌, length, IfOk, OnOk};
ghost use Rattle.cg_expr.specs.Seen.{seen};
ghost use Rattle.cg_stmt.specs.Functions as spec;

use crate::statements::{Exits, put_body};
use bm_code::code::MachineFunction;
use bm_isa::Instr;
use c_types::{Sequence, Signature, TyId};
use cg_expr::emit::put_expression;
use cg_expr::target::{Target, put, sum};
use lu_base::Memory;
use lu_base::limits::STACK_HEIGHT;
use src_tree::expr::TypedExpr;
use src_tree::program::Function;
use src_tree::signatures::{same_numbers, same_result};
use std::alloc::Global;

/// Puts what stands behind a body: its end gives zero.
fn put_end(code: &mut Vec<Instr>, ret: Option<TyId>) -> Result<(), Memory>
    ensures { OnOk result (code.new.items ≡ code.old.items ++ spec.end_code ret) }
{
    match ret {
        None => put(code, Instr::Return),
        Some(_) => {
            put(code, Instr::Const { value: 0 })?;
            put(code, Instr::ReturnValue)
        }
    }
}

/// How many there are; `Memory` where they are 2^32 or more.
pub fn count_of(count: usize) -> Result<u32, Memory>
    ensures { IfOk result (λ n. n ≡ count) }
{
    match u32::try_from(count) {
        Ok(count) => Ok(count),
        Err(_) => Err(Memory),
    }
}

/// Whether a signature has this result and these parameters.
fn is_signature(signature: &Signature, ret: Option<TyId>, params: &[TyId]) -> bool
    ensures { result ≡ spec.is_signature signature.now ret params.now }
{
    same_result(ret, signature.result) && same_numbers(params, signature.params.as_slice())
}

/// The number of the first signature of a result and parameters, and that of no signature where there is none.
fn signature_number(
    signatures: &[Signature],
    ret: Option<TyId>,
    params: &[TyId],
) -> Result<u32, Memory>
    ensures { IfOk result (λ n. n ≡ spec.signature_number signatures.now ret params.now) }
{
    let mut number: u32 = 0;
    for signature in signatures {
        if is_signature(signature, ret, params) {
            return Ok(number);
        }
        number = sum(number, 1)?;
    }
    Ok(number)
}

/// A function of the machine.
pub fn compile_function(
    alloc: Global,
    at: &Target,
    function: &Function,
) -> Result<MachineFunction, Memory>
    ensures { IfOk result (λ f. f ≡ spec.machine_function (seen at.now) function.now) }
{
    let mut code = Vec::new(alloc);
    let to = Exits { leave: 0, turn: 0 };
    put_body(at, &mut code, function.body.as_slice(), to)?;
    put_end(&mut code, function.ret)?;
    let signatures = at.program.types.parts().signatures.as_slice();
    let params = function.params.as_slice();
    Ok(MachineFunction {
        name: function.name,
        signature: signature_number(signatures, function.ret, params)?,
        locals: sum(count_of(params.len())?, count_of(function.locals.len())?)?,
        height: STACK_HEIGHT,
        code: Sequence::from_vec(code),
    })
}

/// The hidden function of a filter, which panics with 1 where the filter holds and with 0 where it doesn't.
pub fn compile_filter(
    alloc: Global,
    at: &Target,
    filter: &TypedExpr,
) -> Result<MachineFunction, Memory>
    ensures { IfOk result (λ f. f ≡ spec.filter_function (seen at.now)
        (length at.now.program.now.names) filter.now) }
{
    let mut code = Vec::new(alloc);
    put_expression(at, &mut code, filter)?;
    put(&mut code, Instr::Not)?;
    put(&mut code, Instr::Not)?;
    put(&mut code, Instr::Panic)?;
    let signatures = at.program.types.parts().signatures.as_slice();
    Ok(MachineFunction {
        name: count_of(at.program.names.len())?,
        signature: signature_number(signatures, None, &[])?,
        locals: 0,
        height: STACK_HEIGHT,
        code: Sequence::from_vec(code),
    })
}
