// Calls and statements as the rules ask for them, with their depth.

ghost use Rattle.std.specs.Prelude.{◌≡◌, ◌-◌, ◌&&◌, nat_lt, nat_eq, false, slice_get};
ghost use Rattle.std.specs.Option.{option_map_or};
ghost use Rattle.src_meaning.specs.ValidStatement as spec;
ghost use Rattle.src_meaning.specs.ValidExpression.{local_type, is_target};
ghost use Rattle.src_meaning.specs.ValidDepth.{spot, unary_rank, place_keeps_bounds};
ghost use Rattle.src_model.specs.ValidSeen.{seen};
ghost use Rattle.src_meaning.specs.ValidTypes.{is_int, is_long_long, is_void_pointer};

use crate::valid_depth::{POSTFIX, UNARY, chain_start, keeps_bounds, place_keeps_bounds, whole};
use crate::valid_expr::{
    Declarations, is_assignable, is_condition, is_expr, is_target, local_type,
};
use crate::valid_fits::type_of;
use crate::valid_types::{
    converts, is_declared_scalar, is_int, is_long_long, is_scalar, is_void_pointer,
};
use c_types::{IntKind, Ty, TyId};
use src_tree::expr::{TypedExpr, TypedPlace};
use src_tree::program::Program;
use src_tree::stmt::{Call, Callee, Rhs, TypedStmt};

/// Whether a whole expression keeps the bounds in a construct with this room.
pub fn has_depth(room: u32, e: &TypedExpr) -> bool
    ensures { result ≡ spec.has_depth room e.now }
{
    keeps_bounds(whole(room), e)
}

fn is_argument(at: &Declarations, room: u32, ty: TyId, e: &TypedExpr) -> bool
    ensures { result ≡ spec.is_argument (seen at.now) room ty e.now }
{
    is_expr(at, e) && e.ty == ty && is_scalar(type_of(at.program, ty)) && has_depth(room, e)
}

fn are_arguments(at: &Declarations, room: u32, types: &[TyId], es: &[TypedExpr]) -> bool
    ensures { result ≡ spec.are_arguments (seen at.now) room types.now es.now }
{
    match (types.split_first(), es.split_first()) {
        (None, None) => true,
        (Some((ty, types)), Some((e, es))) => {
            is_argument(at, room, *ty, e) && are_arguments(at, room, types, es)
        }
        _ => false,
    }
}

fn is_int_argument(at: &Declarations, room: u32, es: &[TypedExpr]) -> bool
    ensures { result ≡ spec.is_only_argument (seen at.now) room is_int es.now }
{
    match es.split_first() {
        Some((e, rest)) => {
            rest.is_empty()
                && is_expr(at, e)
                && is_int(type_of(at.program, e.ty))
                && has_depth(room, e)
        }
        None => false,
    }
}

fn is_count_argument(at: &Declarations, room: u32, es: &[TypedExpr]) -> bool
    ensures { result ≡ spec.is_only_argument (seen at.now) room is_long_long es.now }
{
    match es.split_first() {
        Some((e, rest)) => {
            rest.is_empty()
                && is_expr(at, e)
                && is_long_long(type_of(at.program, e.ty))
                && has_depth(room, e)
        }
        None => false,
    }
}

fn is_pointer_argument(at: &Declarations, room: u32, es: &[TypedExpr]) -> bool
    ensures { result ≡ spec.is_only_argument (seen at.now) room is_void_pointer es.now }
{
    match es.split_first() {
        Some((e, rest)) => {
            rest.is_empty()
                && is_expr(at, e)
                && is_void_pointer(type_of(at.program, e.ty))
                && has_depth(room, e)
        }
        None => false,
    }
}

fn are_pointer_arguments(at: &Declarations, room: u32, ty: Option<Ty>, es: &[TypedExpr]) -> bool
    ensures { result ≡ spec.are_pointer_arguments (seen at.now) room ty es.now }
{
    match ty {
        Some(Ty::Function(number)) => {
            match at
                .program
                .types
                .parts()
                .signatures
                .as_slice()
                .get(number as usize)
            {
                None => false,
                Some(signature) => are_arguments(at, room, signature.params.as_slice(), es),
            }
        }
        _ => false,
    }
}

fn are_function_arguments(at: &Declarations, room: u32, function: u32, es: &[TypedExpr]) -> bool
    ensures { result ≡ option_map_or (λ d. spec.are_arguments (seen at.now) room d.params es.now) (slice_get at.now.program.now.functions function) false }
{
    match at.program.functions.as_slice().get(function as usize) {
        None => false,
        Some(callee) => are_arguments(at, room, callee.params.as_slice(), es),
    }
}

fn names_site(p: &Program, site: u32) -> bool
    ensures { result ≡ spec.names_site p.now site }
{
    (site as usize) < p.sites.as_slice().len()
}

fn is_callee_pointer(at: &Declarations, here: u32, e: &TypedExpr) -> bool
    ensures { result ≡ spec.is_callee (seen at.now) here e.now }
{
    is_expr(at, e) && keeps_bounds(chain_start(POSTFIX, here), e)
}

/// Whether the rules allow the call, with its callee where there is room `here` and its arguments where there is `room`.
pub fn is_call(at: &Declarations, here: u32, room: u32, call: &Call) -> bool
    ensures { result ≡ spec.is_call (seen at.now) here room call.now }
{
    let p = at.program;
    let es = call.args.as_slice();
    match &call.callee {
        Callee::Function(function) => 1 < here && are_function_arguments(at, room, *function, es),
        Callee::Pointer(e) => {
            is_callee_pointer(at, here, e) && are_pointer_arguments(at, room, type_of(p, e.ty), es)
        }
        Callee::Send => 1 < here && is_int_argument(at, room, es),
        Callee::Malloc(site) => 2 < room && names_site(p, *site) && es.is_empty(),
        Callee::Calloc(site) => {
            2 < room && names_site(p, *site) && is_count_argument(at, room, es)
        }
        Callee::Free => 1 < here && is_pointer_argument(at, room, es),
        Callee::Panic => 1 < here && is_int_argument(at, room, es),
    }
}

fn type_in(p: &Program, number: Option<TyId>) -> Option<Ty>
    ensures { result ≡ spec.type_in p.now.types number }
{
    match number {
        None => None,
        Some(number) => type_of(p, number),
    }
}

fn pointer_result(p: &Program, ty: Option<Ty>) -> Option<Ty>
    ensures { result ≡ spec.pointer_result p.now.types ty }
{
    match ty {
        Some(Ty::Function(number)) => {
            match p.types.parts().signatures.as_slice().get(number as usize) {
                None => None,
                Some(signature) => type_in(p, signature.result),
            }
        }
        _ => None,
    }
}

fn call_result(p: &Program, callee: &Callee) -> Option<Ty>
    ensures { result ≡ spec.call_result p.now callee.now }
{
    match callee {
        Callee::Function(function) => match p.functions.as_slice().get(*function as usize) {
            None => None,
            Some(callee) => type_in(p, callee.ret),
        },
        Callee::Pointer(e) => pointer_result(p, type_of(p, e.ty)),
        Callee::Send => Some(Ty::Int(IntKind::Int)),
        Callee::Malloc(_) | Callee::Calloc(_) => Some(Ty::VoidPointer),
        Callee::Free | Callee::Panic => None,
    }
}

fn is_allocation(callee: &Callee) -> bool
    ensures { result ≡ spec.is_allocation callee.now }
{
    matches!(callee, Callee::Malloc(_) | Callee::Calloc(_))
}

fn is_right_side(at: &Declarations, room: u32, ty: TyId, rhs: &Rhs) -> bool
    ensures { result ≡ spec.is_right_side (seen at.now) room ty rhs.now }
{
    match rhs {
        Rhs::Value(e) => is_assignable(at, ty, e) && has_depth(room, e),
        Rhs::Call(call, to) => {
            is_call(at, room.saturating_sub(1), room, call)
                && *to == ty
                && converts(
                    call_result(at.program, &call.callee),
                    type_of(at.program, ty),
                )
        }
    }
}

fn is_plain(rhs: &Rhs) -> bool
    ensures { result ≡ spec.is_plain rhs.now }
{
    matches!(rhs, Rhs::Value(_))
}

fn is_allocating(rhs: &Rhs) -> bool
    ensures { result ≡ spec.is_allocating rhs.now }
{
    match rhs {
        Rhs::Value(_) => false,
        Rhs::Call(call, _) => is_allocation(&call.callee),
    }
}

fn is_local_start(at: &Declarations, room: u32, ty: TyId, rhs: &Option<Rhs>) -> bool
    ensures { result ≡ spec.is_local_start (seen at.now) room ty rhs.now }
{
    match rhs {
        None => true,
        Some(rhs) => is_right_side(at, room, ty, rhs),
    }
}

fn is_declaration(at: &Declarations, room: u32, number: u32, rhs: &Option<Rhs>) -> bool
    ensures { result ≡ option_map_or (spec.is_declaration (seen at.now) room rhs.now) (local_type (seen at.now) number) false }
{
    match local_type(at, number) {
        None => false,
        Some(ty) => {
            is_declared_scalar(at.program.types.parts(), room, ty)
                && is_local_start(at, room, ty, rhs)
        }
    }
}

fn is_setting(at: &Declarations, room: u32, number: u32, rhs: &Rhs) -> bool
    ensures { result ≡ nat_lt 1 room && option_map_or (λ t. spec.is_right_side (seen at.now) room t rhs.now) (local_type (seen at.now) number) false }
{
    1 < room
        && match local_type(at, number) {
            None => false,
            Some(ty) => is_right_side(at, room, ty, rhs),
        }
}

fn is_returned(at: &Declarations, room: u32, ret: Option<TyId>, rhs: &Option<Rhs>) -> bool
    ensures { result ≡ spec.is_returned (seen at.now) room ret rhs.now }
{
    match (ret, rhs) {
        (None, None) => 0 < room,
        (Some(ty), Some(rhs)) => is_right_side(at, room, ty, rhs) && !is_allocating(rhs),
        _ => false,
    }
}

fn is_test(at: &Declarations, room: u32, e: &TypedExpr) -> bool
    ensures { result ≡ spec.is_test (seen at.now) room e.now }
{
    is_condition(at, e) && has_depth(room, e)
}

fn is_loop_condition(at: &Declarations, room: u32, e: &Option<TypedExpr>) -> bool
    ensures { result ≡ spec.is_loop_condition (seen at.now) room e.now }
{
    match e {
        None => true,
        Some(e) => is_test(at, room, e),
    }
}

fn is_assignment(at: &Declarations, room: u32, to: &TypedPlace, rhs: &Rhs) -> bool
    ensures { result ≡ is_target (seen at.now) to.now && (place_keeps_bounds (spot unary_rank room) to.now.kind && spec.is_right_side (seen at.now) room to.now.ty rhs.now) }
{
    is_target(at, to)
        && place_keeps_bounds(chain_start(UNARY, room), to)
        && is_right_side(at, room, to.ty, rhs)
}

fn is_simple(statement: &TypedStmt) -> bool
    ensures { result ≡ spec.is_simple statement.now }
{
    match statement {
        TypedStmt::SetLocal(_, rhs) | TypedStmt::Assign(_, rhs) => is_plain(rhs),
        _ => false,
    }
}

fn are_optional(statements: &[TypedStmt]) -> bool
    ensures { result ≡ spec.are_optional statements.now }
{
    match statements.split_first() {
        None => true,
        Some((_, rest)) => rest.is_empty(),
    }
}

fn are_optional_simple(statements: &[TypedStmt]) -> bool
    ensures { result ≡ spec.are_optional_simple statements.now }
{
    match statements.split_first() {
        None => true,
        Some((statement, rest)) => rest.is_empty() && is_simple(statement),
    }
}

/// Whether a function with this result may have the statement, inside a loop or not, where there is this room.
#[cycle(is_statement)]
fn is_statement(
    at: &Declarations,
    ret: Option<TyId>,
    in_loop: bool,
    room: u32,
    statement: &TypedStmt,
) -> bool
    ensures { result ≡ spec.is_statement (seen at.now) ret in_loop room statement.now }
{
    let inner = room.saturating_sub(1);
    match statement {
        TypedStmt::Block(body) => {
            1 < room && are_statements(at, ret, in_loop, room.saturating_sub(2), body.as_slice())
        }
        TypedStmt::Empty => 0 < room,
        TypedStmt::Declare(number, rhs) => is_declaration(at, room, *number, rhs),
        TypedStmt::SetLocal(number, rhs) => is_setting(at, room, *number, rhs),
        TypedStmt::Assign(to, rhs) => is_assignment(at, room, to, rhs),
        TypedStmt::Call(call) => is_call(at, room, room, call) && !is_allocation(&call.callee),
        TypedStmt::If(e, then, otherwise) => {
            is_test(at, room, e)
                && is_statement(at, ret, in_loop, inner, then.get())
                && are_optional(otherwise.as_slice())
                && are_statements(at, ret, in_loop, inner, otherwise.as_slice())
        }
        TypedStmt::While(e, body) => {
            is_test(at, room, e) && is_statement(at, ret, true, inner, body.get())
        }
        TypedStmt::For(first, e, step, body) => {
            are_optional_simple(first.as_slice())
                && are_statements(at, ret, in_loop, room, first.as_slice())
                && is_loop_condition(at, room, e)
                && are_optional_simple(step.as_slice())
                && are_statements(at, ret, in_loop, room, step.as_slice())
                && is_statement(at, ret, true, inner, body.get())
        }
        TypedStmt::Break | TypedStmt::Continue => in_loop && 0 < room,
        TypedStmt::Return(rhs) => is_returned(at, room, ret, rhs),
    }
}

/// Whether a function with this result may have these statements.
#[cycle(is_statement)]
pub fn are_statements(
    at: &Declarations,
    ret: Option<TyId>,
    in_loop: bool,
    room: u32,
    statements: &[TypedStmt],
) -> bool
    ensures { result ≡ spec.are_statements (seen at.now) ret in_loop room statements.now }
{
    for statement in statements {
        if !is_statement(at, ret, in_loop, room, statement) {
            return false;
        }
    }
    true
}
