// The code of statements, put behind code that stands already.

ghost use Rattle.std.specs.Prelude.{◌≡◌, ◌+◌, ◌++◌, length, IfOk, OnOk};
ghost use Rattle.cg_expr.specs.Sizes.{expression_size};
ghost use Rattle.cg_expr.specs.Seen.{seen};
ghost use Rattle.cg_stmt.specs.StatementSizes as sizes;
ghost use Rattle.cg_stmt.specs.StatementCode as spec;

use crate::calls::{put_call, put_right_side};
use crate::sizes::{body_size, condition_size, has_result, statement_size};
use bm_isa::Instr;
use c_types::{TyId, TypeTable};
use cg_expr::emit::{Branches, branches_of, put_expression, put_place};
use cg_expr::scalars::{is_scalar, scalar_number};
use cg_expr::sizes::expression_size;
use cg_expr::target::{Target, behind, pointer_size, put, size_of, sum, type_of};
use lu_base::Memory;
use src_tree::expr::{TypedExpr, TypedPlace};
use src_tree::stmt::{Call, Rhs, TypedStmt};

/// Where the innermost loop is left, and where its turn ends.
#[derive(Clone, Copy)]
pub struct Exits {
    pub leave: u32,
    pub turn: u32,
}

/// Puts what stores a word, or the struct at an address, at the address on top.
fn put_store(code: &mut Vec<Instr>, types: &TypeTable, number: TyId) -> Result<(), Memory>
    ensures { OnOk result (code.new.items
        ≡ code.old.items ++ spec.store_last types.now number) }
{
    let ty = type_of(types, number);
    if is_scalar(ty) {
        let kind = scalar_number(pointer_size(types), ty);
        put(code, Instr::Store { kind })
    } else {
        let size = size_of(types, number);
        put(code, Instr::CopyBytes { size })
    }
}

/// Puts a local's value at its declaration.
fn put_start(at: &Target, code: &mut Vec<Instr>, rhs: &Option<Rhs>) -> Result<(), Memory>
    ensures { OnOk result (code.new.items ≡ code.old.items
        ++ spec.start_code (seen at.now) rhs.now (length code.old.items)) }
{
    match rhs {
        None => put(code, Instr::Const { value: 0 }),
        Some(rhs) => put_right_side(at, code, rhs),
    }
}

/// Puts an assignment to a place: the right side, and then the place.
fn put_assignment(
    at: &Target,
    code: &mut Vec<Instr>,
    place: &TypedPlace,
    rhs: &Rhs,
) -> Result<(), Memory>
    ensures { OnOk result (code.new.items ≡ code.old.items
        ++ spec.assignment_code (seen at.now) place.now rhs.now (length code.old.items)) }
{
    put_right_side(at, code, rhs)?;
    put_place(at, true, code, place)?;
    put_store(code, &at.program.types, place.ty)
}

/// Puts a call whose result, if any, is dropped.
fn put_call_alone(at: &Target, code: &mut Vec<Instr>, call: &Call) -> Result<(), Memory>
    ensures { OnOk result (code.new.items ≡ code.old.items
        ++ spec.call_alone_code (seen at.now) call.now (length code.old.items)) }
{
    put_call(at, code, call)?;
    if has_result(at, &call.callee) {
        put(code, Instr::Pop)
    } else {
        Ok(())
    }
}

/// Puts a loop's condition.
fn put_condition(at: &Target, code: &mut Vec<Instr>, test: &Option<TypedExpr>) -> Result<(), Memory>
    ensures { OnOk result (code.new.items ≡ code.old.items
        ++ spec.condition_code (seen at.now) test.now (length code.old.items)) }
{
    match test {
        None => put(code, Instr::Const { value: 1 }),
        Some(e) => put_expression(at, code, e),
    }
}

/// Puts a `return`.
fn put_return(at: &Target, code: &mut Vec<Instr>, rhs: &Option<Rhs>) -> Result<(), Memory>
    ensures { OnOk result (code.new.items ≡ code.old.items
        ++ spec.return_code (seen at.now) rhs.now (length code.old.items)) }
{
    match rhs {
        None => put(code, Instr::Return),
        Some(rhs) => {
            put_right_side(at, code, rhs)?;
            put(code, Instr::ReturnValue)
        }
    }
}

/// The exits of a loop that begins behind the code, from the sizes of its parts; `Memory` where a place is 2^32 or more.
fn exits_of(code: &[Instr], test: u32, body: u32, step: u32) -> Result<Exits, Memory>
    ensures { IfOk result (λ to. to ≡ spec.loop_exits (length code.now) test body step) }
{
    let turn = sum(sum(behind(code, test)?, 1)?, body)?;
    let leave = sum(sum(turn, step)?, 1)?;
    Ok(Exits { leave, turn })
}

/// The branches of an `if` behind the code.
fn if_branches(
    code: &[Instr],
    at: &Target,
    test: &TypedExpr,
    yes: &TypedStmt,
    no: &[TypedStmt],
) -> Result<Branches, Memory>
    ensures other { IfOk result (λ b. b.other ≡ length code.now
        + expression_size at.now.program.now.types test.now.ty test.now.kind + 1
        + sizes.statement_size (seen at.now) yes.now + 1) }
    ensures end { IfOk result (λ b. b.end ≡ b.other + sizes.body_size (seen at.now) no.now) }
{
    let test = expression_size(&at.program.types, test)?;
    let yes = statement_size(at, yes)?;
    branches_of(code, test, yes, body_size(at, no)?)
}

/// The exits of a `while` behind the code.
fn while_exits(
    code: &[Instr],
    at: &Target,
    test: &TypedExpr,
    body: &TypedStmt,
) -> Result<Exits, Memory>
    ensures { IfOk result (λ to. to ≡ spec.loop_exits (length code.now)
        (expression_size at.now.program.now.types test.now.ty test.now.kind)
        (sizes.statement_size (seen at.now) body.now) 0) }
{
    let test = expression_size(&at.program.types, test)?;
    exits_of(code, test, statement_size(at, body)?, 0)
}

/// The exits of a `for` whose condition begins behind the code.
fn for_exits(
    code: &[Instr],
    at: &Target,
    test: &Option<TypedExpr>,
    step: &[TypedStmt],
    body: &TypedStmt,
) -> Result<Exits, Memory>
    ensures { IfOk result (λ to. to ≡ spec.loop_exits (length code.now)
        (sizes.condition_size at.now.program.now.types test.now)
        (sizes.statement_size (seen at.now) body.now) (sizes.body_size (seen at.now) step.now)) }
{
    let test = condition_size(&at.program.types, test)?;
    let step = body_size(at, step)?;
    exits_of(code, test, statement_size(at, body)?, step)
}

/// Puts the code of a statement behind the code. `Memory` also where the code would have 2^32 instructions; the code is
/// then to be dropped.
#[cycle(put_statement)]
pub fn put_statement(
    at: &Target,
    code: &mut Vec<Instr>,
    statement: &TypedStmt,
    to: Exits,
) -> Result<(), Memory>
    ensures { OnOk result (code.new.items ≡ code.old.items
        ++ spec.statement_code (seen at.now) statement.now to (length code.old.items)) }
{
    match statement {
        TypedStmt::Block(body) => put_body(at, code, body.as_slice(), to),
        TypedStmt::Empty => Ok(()),
        TypedStmt::Declare(local, rhs) => {
            put_start(at, code, rhs)?;
            put(code, Instr::SetLocal { local: *local })
        }
        TypedStmt::SetLocal(local, rhs) => {
            put_right_side(at, code, rhs)?;
            put(code, Instr::SetLocal { local: *local })
        }
        TypedStmt::Assign(place, rhs) => put_assignment(at, code, place, rhs),
        TypedStmt::Call(call) => put_call_alone(at, code, call),
        TypedStmt::If(test, yes, no) => {
            let branches = if_branches(code, at, test, yes.get(), no.as_slice())?;
            put_expression(at, code, test)?;
            put(
                code,
                Instr::JumpIfZero {
                    target: branches.other,
                },
            )?;
            put_statement(at, code, yes.get(), to)?;
            put(
                code,
                Instr::Jump {
                    target: branches.end,
                },
            )?;
            put_body(at, code, no.as_slice(), to)
        }
        TypedStmt::While(test, body) => {
            let start = behind(code, 0)?;
            let exits = while_exits(code, at, test, body.get())?;
            put_expression(at, code, test)?;
            put(
                code,
                Instr::JumpIfZero {
                    target: exits.leave,
                },
            )?;
            put_statement(at, code, body.get(), exits)?;
            put(code, Instr::Jump { target: start })
        }
        TypedStmt::For(first, test, step, body) => {
            put_body(at, code, first.as_slice(), to)?;
            let start = behind(code, 0)?;
            let exits = for_exits(code, at, test, step.as_slice(), body.get())?;
            put_condition(at, code, test)?;
            put(
                code,
                Instr::JumpIfZero {
                    target: exits.leave,
                },
            )?;
            put_statement(at, code, body.get(), exits)?;
            put_body(at, code, step.as_slice(), to)?;
            put(code, Instr::Jump { target: start })
        }
        TypedStmt::Break => put(code, Instr::Jump { target: to.leave }),
        TypedStmt::Continue => put(code, Instr::Jump { target: to.turn }),
        TypedStmt::Return(rhs) => put_return(at, code, rhs),
    }
}

/// Puts the code of statements behind the code. Errors as for `put_statement`.
#[cycle(put_statement)]
pub fn put_body(
    at: &Target,
    code: &mut Vec<Instr>,
    body: &[TypedStmt],
    to: Exits,
) -> Result<(), Memory>
    ensures { OnOk result (code.new.items ≡ code.old.items
        ++ spec.body_code (seen at.now) body.now to (length code.old.items)) }
{
    for statement in body {
        put_statement(at, code, statement, to)?;
    }
    Ok(())
}
