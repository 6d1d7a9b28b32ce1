// How many instructions the code of an expression or of a place has.

ghost use Rattle.std.specs.Prelude.{◌≡◌, ◌+◌, ◌≤◌, ℕ, length, IfOk};
ghost use Rattle.c_types.specs.declared.parts.IntKind.{IntKind};
ghost use Rattle.bm_isa.specs.declared.instr.Instr.{Instr};
ghost use Rattle.cg_expr.specs.Pieces as pieces;
ghost use Rattle.cg_expr.specs.Sizes as spec;

use crate::scalars::is_scalar;
use crate::target::{sum, type_of};
use c_types::{Ty, TyId, TypeTable};
use lu_base::Memory;
use src_tree::expr::{
    BinaryOperator, ExprKind, LogicalOperator, PlaceKind, TypedExpr, TypedPlace, UnaryOperator,
};

/// Of what cuts a word to a type.
pub fn normal_size(ty: Option<Ty>) -> u32
    ensures { result ≡ length (pieces.normal ty) }
{
    match ty {
        Some(Ty::Int(_)) => 1,
        Some(Ty::Pointer(_)) | Some(Ty::VoidPointer) | Some(Ty::Function(_)) => 0,
        Some(Ty::Struct(_)) | Some(Ty::Union(_)) | Some(Ty::Array(_, _)) => 0,
        None => 0,
    }
}

/// Of what loads a value of a type.
fn load_size(ty: Option<Ty>) -> u32
    ensures { (w : ℕ) → result ≡ length (spec.load_last w ty) }
{
    if is_scalar(ty) { 1 } else { 0 }
}

/// Of arithmetic in a type.
fn arithmetic_size(ty: Option<Ty>) -> u32
    ensures value { (f : IntKind → Instr) → result ≡ length (pieces.arithmetic ty f) }
    ensures small { result ≤ 2 }
{
    match ty {
        Some(Ty::Int(_)) => 2,
        Some(Ty::Pointer(_)) | Some(Ty::VoidPointer) | Some(Ty::Function(_)) => 0,
        Some(Ty::Struct(_)) | Some(Ty::Union(_)) | Some(Ty::Array(_, _)) => 0,
        None => 0,
    }
}

/// Of what stands before and behind the operand.
fn unary_size(ty: Option<Ty>, operator: UnaryOperator) -> u32
    ensures { result
        ≡ length (pieces.unary_first operator) + length (pieces.unary_last ty operator) }
{
    match operator {
        UnaryOperator::Minus | UnaryOperator::Complement => 1 + arithmetic_size(ty),
        UnaryOperator::Not => 1,
    }
}

/// Of what stands behind both operands, at a node of a type.
fn binary_size(types: &TypeTable, number: TyId, operator: BinaryOperator) -> u32
    ensures { (left : ℕ) → result
        ≡ length (pieces.binary_last types.now number left operator) }
{
    let ty = type_of(types, number);
    match operator {
        BinaryOperator::Less | BinaryOperator::Equal => 1,
        BinaryOperator::LessEqual => 3,
        BinaryOperator::Greater | BinaryOperator::GreaterEqual | BinaryOperator::NotEqual => 2,
        BinaryOperator::PointerAdd => 1,
        BinaryOperator::AddPointer => 2,
        BinaryOperator::PointerSubtract | BinaryOperator::PointerDifference => 1,
        BinaryOperator::Add | BinaryOperator::Subtract => arithmetic_size(ty),
        BinaryOperator::Multiply | BinaryOperator::Divide => arithmetic_size(ty),
        BinaryOperator::Remainder | BinaryOperator::BitAnd => arithmetic_size(ty),
        BinaryOperator::BitXor | BinaryOperator::BitOr => arithmetic_size(ty),
        BinaryOperator::ShiftLeft | BinaryOperator::ShiftRight => arithmetic_size(ty),
    }
}

/// Of what stands behind the left operand before it is looked at.
pub fn logical_first_size(operator: LogicalOperator) -> u32
    ensures { result ≡ length (pieces.logical_first operator) }
{
    match operator {
        LogicalOperator::And => 0,
        LogicalOperator::Or => 1,
    }
}

/// Of a choice, from the sizes of its test, of what follows where the test isn't 0, and of the other; `Memory` where
/// it is 2^32 or more.
pub fn choice_size(test: u32, yes: u32, no: u32) -> Result<u32, Memory>
    ensures { IfOk result (λ n. n ≡ spec.choice_size test yes no) }
{
    sum(sum(sum(sum(test, 1)?, yes)?, 1)?, no)
}

/// Of an expression; `Memory` where it is 2^32 or more.
#[cycle(expression_size)]
pub fn expression_size(types: &TypeTable, e: &TypedExpr) -> Result<u32, Memory>
    ensures { IfOk result (λ n. n ≡ spec.expression_size types.now e.now.ty e.now.kind) }
{
    let ty = type_of(types, e.ty);
    match &e.kind {
        ExprKind::Number(_) | ExprKind::SizeOf(_) => Ok(1),
        ExprKind::Local(_) | ExprKind::Function(_) => Ok(1),
        ExprKind::Load(place) => sum(place_size(types, place.get())?, load_size(ty)),
        ExprKind::AddressOf(place) => address_size(types, place.get()),
        ExprKind::Decay(place) => place_size(types, place.get()),
        ExprKind::Cast(inner) => sum(expression_size(types, inner.get())?, normal_size(ty)),
        ExprKind::Convert(inner) => sum(expression_size(types, inner.get())?, normal_size(ty)),
        ExprKind::Unary(operator, inner) => {
            sum(
                expression_size(types, inner.get())?,
                unary_size(ty, *operator),
            )
        }
        ExprKind::Binary(operator, a, b) => sum(
            sum(
                expression_size(types, a.get())?,
                expression_size(types, b.get())?,
            )?,
            binary_size(types, e.ty, *operator),
        ),
        ExprKind::Logical(operator, a, b) => choice_size(
            sum(
                expression_size(types, a.get())?,
                logical_first_size(*operator),
            )?,
            sum(expression_size(types, b.get())?, 2)?,
            1,
        ),
        ExprKind::Conditional(c, a, b) => choice_size(
            expression_size(types, c.get())?,
            expression_size(types, a.get())?,
            expression_size(types, b.get())?,
        ),
    }
}

/// Of a place; `Memory` where it is 2^32 or more.
#[cycle(expression_size)]
pub fn place_size(types: &TypeTable, place: &TypedPlace) -> Result<u32, Memory>
    ensures { IfOk result (λ n. n ≡ spec.place_size types.now place.now.kind) }
{
    match &place.kind {
        PlaceKind::Global(_) => Ok(1),
        PlaceKind::Deref(e) => sum(expression_size(types, e.get())?, 1),
        PlaceKind::Arrow(e) => sum(expression_size(types, e.get())?, 1),
        PlaceKind::Item(pointer, index) => sum(
            sum(
                expression_size(types, pointer.get())?,
                expression_size(types, index.get())?,
            )?,
            2,
        ),
        PlaceKind::Element(array, index) => sum(
            sum(
                place_size(types, array.get())?,
                expression_size(types, index.get())?,
            )?,
            1,
        ),
        PlaceKind::Field(whole, _) => sum(place_size(types, whole.get())?, 1),
        PlaceKind::Member(whole, _) => sum(place_size(types, whole.get())?, 2),
    }
}

/// Of the address of a place; `Memory` where it is 2^32 or more.
#[cycle(expression_size)]
pub fn address_size(types: &TypeTable, place: &TypedPlace) -> Result<u32, Memory>
    ensures { IfOk result (λ n. n ≡ spec.address_size types.now place.now.kind) }
{
    match &place.kind {
        PlaceKind::Deref(e) => expression_size(types, e.get()),
        PlaceKind::Item(pointer, index) => sum(
            sum(
                expression_size(types, pointer.get())?,
                expression_size(types, index.get())?,
            )?,
            1,
        ),
        PlaceKind::Element(array, index) => sum(
            sum(
                place_size(types, array.get())?,
                expression_size(types, index.get())?,
            )?,
            1,
        ),
        PlaceKind::Global(_) => Ok(1),
        PlaceKind::Arrow(e) => sum(expression_size(types, e.get())?, 1),
        PlaceKind::Field(whole, _) => sum(place_size(types, whole.get())?, 1),
        PlaceKind::Member(whole, _) => sum(place_size(types, whole.get())?, 2),
    }
}
