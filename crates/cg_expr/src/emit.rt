// The code of expressions and places, put behind code that stands already.

ghost use Rattle.std.specs.Prelude.{◌≡◌, ◌+◌, ◌++◌, length, false, IfOk, OnOk};
ghost use Rattle.cg_expr.specs.Pieces as pieces;
ghost use Rattle.cg_expr.specs.Sizes as sizes;
ghost use Rattle.cg_expr.specs.Code as spec;
ghost use Rattle.cg_expr.specs.Seen.{seen};

use crate::operators::{
    element_size, put_binary_last, put_decided, put_logical_first, put_unary_first, put_unary_last,
};
use crate::places::{
    put_check, put_element_end_last, put_element_last, put_field_last, put_item_last, put_to_member,
};
use crate::scalars::{put_load, put_normal};
use crate::sizes::{expression_size, logical_first_size};
use crate::target::{Target, behind, put, size_of, start_of, sum, type_of};
use crate::words::word_of;
use bm_isa::Instr;
use c_types::TypeTable;
use lu_base::Memory;
use src_tree::expr::{ExprKind, LogicalOperator, PlaceKind, TypedExpr, TypedPlace};

/// Where a choice goes on where the test's word is 0, and where it ends.
#[derive(Clone, Copy)]
pub struct Branches {
    pub other: u32,
    pub end: u32,
}

/// The branches of a choice that begins behind the code, from the sizes of its test, of what follows where the test
/// isn't 0, and of the other; `Memory` where a place is 2^32 or more.
pub fn branches_of(code: &[Instr], test: u32, yes: u32, no: u32) -> Result<Branches, Memory>
    ensures other { IfOk result (λ b. b.other ≡ length code.now + test + 1 + yes + 1) }
    ensures end { IfOk result (λ b. b.end ≡ length code.now + test + 1 + yes + 1 + no) }
{
    let other = sum(sum(sum(behind(code, test)?, 1)?, yes)?, 1)?;
    let end = sum(other, no)?;
    Ok(Branches { other, end })
}

/// The branches of an operator whose right operand may stay unevaluated.
fn logical_branches(
    code: &[Instr],
    types: &TypeTable,
    operator: LogicalOperator,
    a: &TypedExpr,
    b: &TypedExpr,
) -> Result<Branches, Memory>
    ensures other { IfOk result (λ to. to.other ≡ length code.now
        + (sizes.expression_size types.now a.now.ty a.now.kind
        + length (pieces.logical_first operator))
        + 1 + (sizes.expression_size types.now b.now.ty b.now.kind + 2) + 1) }
    ensures end { IfOk result (λ to. to.end ≡ to.other + 1) }
{
    let test = sum(expression_size(types, a)?, logical_first_size(operator))?;
    branches_of(code, test, sum(expression_size(types, b)?, 2)?, 1)
}

/// The branches of `c ? a : b`.
fn conditional_branches(
    code: &[Instr],
    types: &TypeTable,
    c: &TypedExpr,
    a: &TypedExpr,
    b: &TypedExpr,
) -> Result<Branches, Memory>
    ensures other { IfOk result (λ to. to.other ≡ length code.now
        + sizes.expression_size types.now c.now.ty c.now.kind
        + 1 + sizes.expression_size types.now a.now.ty a.now.kind + 1) }
    ensures end { IfOk result
        (λ to. to.end ≡ to.other + sizes.expression_size types.now b.now.ty b.now.kind) }
{
    let test = expression_size(types, c)?;
    let yes = expression_size(types, a)?;
    branches_of(code, test, yes, expression_size(types, b)?)
}

/// Puts the code of an expression behind the code, which leaves one word more on the stack: a scalar's, or the address
/// of a struct or a union. `Memory` also where the code would have 2^32 instructions; the code is then to be dropped.
#[cycle(emit)]
pub fn put_expression(at: &Target, code: &mut Vec<Instr>, e: &TypedExpr) -> Result<(), Memory>
    ensures { OnOk result (code.new.items ≡ code.old.items
        ++ spec.expression_code (seen at.now) e.now.ty e.now.kind (length code.old.items)) }
{
    let types = &at.program.types;
    match &e.kind {
        ExprKind::Number(z) => put(code, Instr::Const { value: word_of(*z) }),
        ExprKind::SizeOf(ty) => {
            let value = u64::from(size_of(types, *ty));
            put(code, Instr::Const { value })
        }
        ExprKind::Local(local) => put(code, Instr::GetLocal { local: *local }),
        ExprKind::Function(function) => {
            let value = u64::from(*function) + 1;
            put(code, Instr::Const { value })
        }
        ExprKind::Load(place) => {
            put_place(at, false, code, place.get())?;
            put_load(code, types, e.ty)
        }
        ExprKind::AddressOf(place) => put_address(at, code, place.get()),
        ExprKind::Decay(place) => put_place(at, false, code, place.get()),
        ExprKind::Cast(inner) => {
            put_expression(at, code, inner.get())?;
            put_normal(code, type_of(types, e.ty))
        }
        ExprKind::Convert(inner) => {
            put_expression(at, code, inner.get())?;
            put_normal(code, type_of(types, e.ty))
        }
        ExprKind::Unary(operator, inner) => {
            put_unary_first(code, *operator)?;
            put_expression(at, code, inner.get())?;
            put_unary_last(code, type_of(types, e.ty), *operator)
        }
        ExprKind::Binary(operator, a, b) => {
            put_expression(at, code, a.get())?;
            put_expression(at, code, b.get())?;
            put_binary_last(code, types, e.ty, a.get().ty, *operator)
        }
        ExprKind::Logical(operator, a, b) => {
            let to = logical_branches(code, types, *operator, a.get(), b.get())?;
            put_expression(at, code, a.get())?;
            put_logical_first(code, *operator)?;
            put(code, Instr::JumpIfZero { target: to.other })?;
            put_expression(at, code, b.get())?;
            put_decided(code, to.end, *operator)
        }
        ExprKind::Conditional(c, a, b) => {
            let to = conditional_branches(code, types, c.get(), a.get(), b.get())?;
            put_expression(at, code, c.get())?;
            put(code, Instr::JumpIfZero { target: to.other })?;
            put_expression(at, code, a.get())?;
            put(code, Instr::Jump { target: to.end })?;
            put_expression(at, code, b.get())
        }
    }
}

/// Puts the code of a place's address behind the code. A place that is assigned makes the members on its way active,
/// and one that is read checks that they are. Errors as for `put_expression`.
#[cycle(emit)]
pub fn put_place(
    at: &Target,
    assigns: bool,
    code: &mut Vec<Instr>,
    place: &TypedPlace,
) -> Result<(), Memory>
    ensures { OnOk result (code.new.items ≡ code.old.items
        ++ spec.place_code (seen at.now) assigns place.now.ty place.now.kind
        (length code.old.items)) }
{
    let types = &at.program.types;
    match &place.kind {
        PlaceKind::Global(global) => {
            let value = u64::from(start_of(at.starts, *global));
            put(code, Instr::Const { value })
        }
        PlaceKind::Deref(e) => {
            put_expression(at, code, e.get())?;
            put_check(code, place.ty)
        }
        PlaceKind::Arrow(e) => {
            put_expression(at, code, e.get())?;
            put_check(code, place.ty)
        }
        PlaceKind::Item(pointer, index) => {
            put_expression(at, code, pointer.get())?;
            put_expression(at, code, index.get())?;
            put_item_last(code, types, pointer.get().ty, place.ty)
        }
        PlaceKind::Element(array, index) => {
            put_place(at, assigns, code, array.get())?;
            put_expression(at, code, index.get())?;
            put_element_last(code, types, array.get().ty, place.ty)
        }
        PlaceKind::Field(whole, field) => {
            put_place(at, assigns, code, whole.get())?;
            put_field_last(code, types, whole.get().ty, *field)
        }
        PlaceKind::Member(whole, member) => {
            put_place(at, assigns, code, whole.get())?;
            put_to_member(code, assigns, types, whole.get().ty, *member)
        }
    }
}

/// Puts the code of `&` of a place behind the code. Errors as for `put_expression`.
#[cycle(emit)]
fn put_address(at: &Target, code: &mut Vec<Instr>, place: &TypedPlace) -> Result<(), Memory>
    ensures { OnOk result (code.new.items ≡ code.old.items
        ++ spec.address_code (seen at.now) place.now.ty place.now.kind (length code.old.items)) }
{
    let types = &at.program.types;
    match &place.kind {
        PlaceKind::Deref(e) => put_expression(at, code, e.get()),
        PlaceKind::Item(pointer, index) => {
            put_expression(at, code, pointer.get())?;
            put_expression(at, code, index.get())?;
            let size = element_size(types, pointer.get().ty);
            put(code, Instr::AddPointer { size })
        }
        PlaceKind::Element(array, index) => {
            put_place(at, false, code, array.get())?;
            put_expression(at, code, index.get())?;
            put_element_end_last(code, types, array.get().ty, place.ty)
        }
        PlaceKind::Global(_) => put_place(at, false, code, place),
        PlaceKind::Arrow(_) => put_place(at, false, code, place),
        PlaceKind::Field(_, _) => put_place(at, false, code, place),
        PlaceKind::Member(_, _) => put_place(at, false, code, place),
    }
}
