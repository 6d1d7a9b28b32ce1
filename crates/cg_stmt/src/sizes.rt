// How many instructions the code of a statement has.

ghost use Rattle.std.specs.Prelude.{◌≡◌, false, length, is_some, slice_get, IfOk};
ghost use Rattle.std.specs.Option.{option_map_or};
ghost use Rattle.src_meaning.specs.ValidTypes.{ty};
ghost use Rattle.cg_expr.specs.Seen.{seen};
ghost use Rattle.cg_stmt.specs.StatementSizes as spec;

use c_types::{Ty, TyId, TypeTable};
use cg_expr::sizes::{choice_size, expression_size, normal_size, place_size};
use cg_expr::target::{Target, sum, type_of};
use lu_base::Memory;
use src_tree::expr::TypedExpr;
use src_tree::program::Function;
use src_tree::stmt::{Call, Callee, Rhs, TypedStmt};

/// Of a call's arguments.
fn arguments_size(types: &TypeTable, args: &[TypedExpr]) -> Result<u32, Memory>
    ensures { IfOk result (λ n. n ≡ spec.arguments_size types.now args.now) }
{
    let mut size: u32 = 0;
    for e in args {
        size = sum(size, expression_size(types, e)?)?;
    }
    Ok(size)
}

/// Of what a call puts before its arguments.
fn callee_size(types: &TypeTable, callee: &Callee) -> Result<u32, Memory>
    ensures { IfOk result (λ n. n ≡ spec.callee_size types.now callee.now) }
{
    match callee {
        Callee::Pointer(e) => expression_size(types, e),
        Callee::Malloc(_) => Ok(1),
        Callee::Function(_) | Callee::Send | Callee::Calloc(_) => Ok(0),
        Callee::Free | Callee::Panic => Ok(0),
    }
}

/// Of a call.
fn call_size(types: &TypeTable, call: &Call) -> Result<u32, Memory>
    ensures { IfOk result (λ n. n ≡ spec.call_size types.now call.now) }
{
    let callee = callee_size(types, &call.callee)?;
    sum(
        sum(callee, arguments_size(types, call.args.as_slice())?)?,
        1,
    )
}

/// Of a right side.
pub fn right_side_size(types: &TypeTable, rhs: &Rhs) -> Result<u32, Memory>
    ensures { IfOk result (λ n. n ≡ spec.right_side_size types.now rhs.now) }
{
    match rhs {
        Rhs::Value(e) => expression_size(types, e),
        Rhs::Call(call, ty) => sum(call_size(types, call)?, normal_size(type_of(types, *ty))),
    }
}

/// Whether the function of a number has a result.
fn function_has_result(functions: &[Function], number: u32) -> bool
    ensures { result ≡ option_map_or (λ d. is_some d.ret) (slice_get functions.now number) false }
{
    match functions.get(number as usize) {
        Some(function) => function.ret.is_some(),
        None => false,
    }
}

/// Whether functions to which pointers of a type point have a result.
fn pointed_has_result(types: &TypeTable, number: TyId) -> bool
    ensures { result ≡ spec.pointed_has_result types.now (ty types.now number) }
{
    match type_of(types, number) {
        Some(Ty::Function(signature)) => {
            match types.parts().signatures.as_slice().get(signature as usize) {
                Some(signature) => signature.result.is_some(),
                None => false,
            }
        }
        _ => false,
    }
}

/// Whether a call leaves a word.
pub fn has_result(at: &Target, callee: &Callee) -> bool
    ensures { result ≡ spec.has_result (seen at.now) callee.now }
{
    match callee {
        Callee::Function(number) => function_has_result(at.program.functions.as_slice(), *number),
        Callee::Pointer(e) => pointed_has_result(&at.program.types, e.ty),
        Callee::Send | Callee::Malloc(_) | Callee::Calloc(_) => true,
        Callee::Free | Callee::Panic => false,
    }
}

/// Of what drops a call's result.
fn dropped_size(has_result: bool) -> u32
    ensures { result ≡ length (spec.dropped has_result) }
{
    if has_result { 1 } else { 0 }
}

/// Of a loop, from the sizes of its test, of its body, and of what follows each turn.
pub fn loop_size(test: u32, body: u32, step: u32) -> Result<u32, Memory>
    ensures { IfOk result (λ n. n ≡ spec.loop_size test body step) }
{
    sum(sum(sum(sum(test, 1)?, body)?, step)?, 1)
}

/// Of a loop's condition.
pub fn condition_size(types: &TypeTable, test: &Option<TypedExpr>) -> Result<u32, Memory>
    ensures { IfOk result (λ n. n ≡ spec.condition_size types.now test.now) }
{
    match test {
        None => Ok(1),
        Some(e) => expression_size(types, e),
    }
}

/// Of a local's value at its declaration.
fn start_size(types: &TypeTable, rhs: &Option<Rhs>) -> Result<u32, Memory>
    ensures { IfOk result (λ n. n ≡ spec.start_size types.now rhs.now) }
{
    match rhs {
        None => Ok(1),
        Some(rhs) => right_side_size(types, rhs),
    }
}

/// Of a `return`.
fn return_size(types: &TypeTable, rhs: &Option<Rhs>) -> Result<u32, Memory>
    ensures { IfOk result (λ n. n ≡ spec.return_size types.now rhs.now) }
{
    match rhs {
        None => Ok(1),
        Some(rhs) => sum(right_side_size(types, rhs)?, 1),
    }
}

/// Of a statement; `Memory` where it is 2^32 or more.
#[cycle(statement_size)]
pub fn statement_size(at: &Target, statement: &TypedStmt) -> Result<u32, Memory>
    ensures { IfOk result (λ n. n ≡ spec.statement_size (seen at.now) statement.now) }
{
    let types = &at.program.types;
    match statement {
        TypedStmt::Block(body) => body_size(at, body.as_slice()),
        TypedStmt::Empty => Ok(0),
        TypedStmt::Declare(_, rhs) => sum(start_size(types, rhs)?, 1),
        TypedStmt::SetLocal(_, rhs) => sum(right_side_size(types, rhs)?, 1),
        TypedStmt::Assign(place, rhs) => {
            let rhs = right_side_size(types, rhs)?;
            sum(sum(rhs, place_size(types, place)?)?, 1)
        }
        TypedStmt::Call(call) => {
            let dropped = dropped_size(has_result(at, &call.callee));
            sum(call_size(types, call)?, dropped)
        }
        TypedStmt::If(test, yes, no) => {
            let test = expression_size(types, test)?;
            let yes = statement_size(at, yes.get())?;
            choice_size(test, yes, body_size(at, no.as_slice())?)
        }
        TypedStmt::While(test, body) => {
            let test = expression_size(types, test)?;
            loop_size(test, statement_size(at, body.get())?, 0)
        }
        TypedStmt::For(first, test, step, body) => {
            let first = body_size(at, first.as_slice())?;
            let test = condition_size(types, test)?;
            let step = body_size(at, step.as_slice())?;
            let turn = loop_size(test, statement_size(at, body.get())?, step)?;
            sum(first, turn)
        }
        TypedStmt::Break | TypedStmt::Continue => Ok(1),
        TypedStmt::Return(rhs) => return_size(types, rhs),
    }
}

/// Of statements; `Memory` where it is 2^32 or more.
#[cycle(statement_size)]
pub fn body_size(at: &Target, body: &[TypedStmt]) -> Result<u32, Memory>
    ensures { IfOk result (λ n. n ≡ spec.body_size (seen at.now) body.now) }
{
    let mut size: u32 = 0;
    for statement in body {
        size = sum(size, statement_size(at, statement)?)?;
    }
    Ok(size)
}
