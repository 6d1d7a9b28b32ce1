// The code of calls and right sides, put behind code that stands already.

ghost use Rattle.std.specs.Prelude.{◌≡◌, ◌++◌, length, OnOk};
ghost use Rattle.cg_expr.specs.Seen.{seen};
ghost use Rattle.cg_stmt.specs.StatementCode as spec;

use bm_isa::Instr;
use cg_expr::emit::put_expression;
use cg_expr::scalars::put_normal;
use cg_expr::target::{Target, put, type_of};
use lu_base::Memory;
use src_tree::expr::TypedExpr;
use src_tree::stmt::{Call, Callee, Rhs};

/// Puts the values of a call's arguments.
fn put_arguments(at: &Target, code: &mut Vec<Instr>, args: &[TypedExpr]) -> Result<(), Memory>
    ensures { OnOk result (code.new.items ≡ code.old.items
        ++ spec.arguments_code (seen at.now) args.now (length code.old.items)) }
{
    for e in args {
        put_expression(at, code, e)?;
    }
    Ok(())
}

/// Puts the value of what is called, or an argument that the text doesn't write.
fn put_callee(at: &Target, code: &mut Vec<Instr>, callee: &Callee) -> Result<(), Memory>
    ensures { OnOk result (code.new.items ≡ code.old.items
        ++ spec.callee_code (seen at.now) callee.now (length code.old.items)) }
{
    match callee {
        Callee::Pointer(e) => put_expression(at, code, e),
        Callee::Malloc(_) => put(code, Instr::Const { value: 1 }),
        Callee::Function(_) | Callee::Send | Callee::Calloc(_) => Ok(()),
        Callee::Free | Callee::Panic => Ok(()),
    }
}

/// The instruction that calls with so many arguments.
fn call_last(callee: &Callee, arguments: u32) -> Instr
    ensures { result ≡ spec.call_last callee.now arguments }
{
    match callee {
        Callee::Function(function) => Instr::Call {
            function: *function,
        },
        Callee::Pointer(_) => Instr::CallIndirect { arguments },
        Callee::Send => Instr::SendMessage,
        Callee::Malloc(site) | Callee::Calloc(site) => Instr::Allocate { site: *site },
        Callee::Free => Instr::Free,
        Callee::Panic => Instr::Panic,
    }
}

/// Puts the code of a call. `Memory` also for 2^32 arguments or more.
pub fn put_call(at: &Target, code: &mut Vec<Instr>, call: &Call) -> Result<(), Memory>
    ensures { OnOk result (code.new.items ≡ code.old.items
        ++ spec.call_code (seen at.now) call.now (length code.old.items)) }
{
    put_callee(at, code, &call.callee)?;
    put_arguments(at, code, call.args.as_slice())?;
    match u32::try_from(call.args.len()) {
        Ok(arguments) => put(code, call_last(&call.callee, arguments)),
        Err(_) => Err(Memory),
    }
}

/// Puts the code of a right side.
pub fn put_right_side(at: &Target, code: &mut Vec<Instr>, rhs: &Rhs) -> Result<(), Memory>
    ensures { OnOk result (code.new.items ≡ code.old.items
        ++ spec.right_side_code (seen at.now) rhs.now (length code.old.items)) }
{
    match rhs {
        Rhs::Value(e) => put_expression(at, code, e),
        Rhs::Call(call, ty) => {
            put_call(at, code, call)?;
            put_normal(code, type_of(&at.program.types, *ty))
        }
    }
}
