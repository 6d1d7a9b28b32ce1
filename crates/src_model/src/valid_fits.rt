// Whether an operator, a conversion or a step fits the types round it.

ghost use Rattle.std.specs.Prelude.{◌≡◌, pos};
ghost use Rattle.src_meaning.specs.ValidTypes.{ty};
ghost use Rattle.src_meaning.specs.ValidExpression as spec;

use crate::valid_types::{
    casts, is_array, is_array_of, is_comparable, is_decayed, is_int, is_long_long, is_named,
    is_object_pointer, is_ordered, is_promoted, is_scalar, points_to,
};
use c_types::{IntKind, Ty, TyId};
use src_tree::expr::{BinaryOperator, UnaryOperator};
use src_tree::program::Program;

/// The type of a number; none where there is no such type.
pub fn type_of(p: &Program, number: TyId) -> Option<Ty>
    ensures { result ≡ ty p.now.types number }
{
    p.types.parts().find_type(number)
}

pub fn unary_fits(p: &Program, node: TyId, operator: UnaryOperator, operand: TyId) -> bool
    ensures { result ≡ spec.unary_fits p.now.types node operator operand }
{
    match operator {
        UnaryOperator::Not => is_int(type_of(p, node)) && is_scalar(type_of(p, operand)),
        _ => is_promoted(type_of(p, node)) && operand == node,
    }
}

fn arithmetic_fits(p: &Program, node: TyId, a: TyId, b: TyId) -> bool
    ensures { result ≡ spec.arithmetic_fits p.now.types node a b }
{
    is_promoted(type_of(p, node)) && a == node && b == node
}

fn shift_fits(p: &Program, node: TyId, a: TyId, b: TyId) -> bool
    ensures { result ≡ spec.shift_fits p.now.types node a b }
{
    is_promoted(type_of(p, node)) && a == node && is_promoted(type_of(p, b))
}

fn order_fits(p: &Program, node: TyId, a: TyId, b: TyId) -> bool
    ensures { result ≡ spec.order_fits p.now.types node a b }
{
    is_int(type_of(p, node)) && a == b && is_ordered(type_of(p, a))
}

fn equality_fits(p: &Program, node: TyId, a: TyId, b: TyId) -> bool
    ensures { result ≡ spec.equality_fits p.now.types node a b }
{
    is_int(type_of(p, node)) && a == b && is_comparable(type_of(p, a))
}

fn move_fits(p: &Program, node: TyId, pointer: TyId, addend: TyId) -> bool
    ensures { result ≡ spec.move_fits p.now.types node pointer addend }
{
    is_object_pointer(type_of(p, node)) && pointer == node && is_long_long(type_of(p, addend))
}

fn difference_fits(p: &Program, node: TyId, a: TyId, b: TyId) -> bool
    ensures { result ≡ spec.difference_fits p.now.types node a b }
{
    is_int(type_of(p, node)) && a == b && is_object_pointer(type_of(p, a))
}

pub fn binary_fits(p: &Program, node: TyId, operator: BinaryOperator, a: TyId, b: TyId) -> bool
    ensures { result ≡ spec.binary_fits p.now.types node operator a b }
{
    match operator {
        BinaryOperator::Add
        | BinaryOperator::Subtract
        | BinaryOperator::Multiply
        | BinaryOperator::Divide
        | BinaryOperator::Remainder
        | BinaryOperator::BitAnd
        | BinaryOperator::BitXor
        | BinaryOperator::BitOr => arithmetic_fits(p, node, a, b),
        BinaryOperator::ShiftLeft | BinaryOperator::ShiftRight => shift_fits(p, node, a, b),
        BinaryOperator::Less
        | BinaryOperator::LessEqual
        | BinaryOperator::Greater
        | BinaryOperator::GreaterEqual => order_fits(p, node, a, b),
        BinaryOperator::Equal | BinaryOperator::NotEqual => equality_fits(p, node, a, b),
        BinaryOperator::PointerAdd | BinaryOperator::PointerSubtract => move_fits(p, node, a, b),
        BinaryOperator::AddPointer => move_fits(p, node, b, a),
        BinaryOperator::PointerDifference => difference_fits(p, node, a, b),
    }
}

pub fn logical_fits(p: &Program, node: TyId, a: TyId, b: TyId) -> bool
    ensures { result ≡ spec.logical_fits p.now.types node a b }
{
    is_int(type_of(p, node)) && is_scalar(type_of(p, a)) && is_scalar(type_of(p, b))
}

pub fn conditional_fits(p: &Program, node: TyId, c: TyId, a: TyId, b: TyId) -> bool
    ensures { result ≡ spec.conditional_fits p.now.types node c a b }
{
    is_scalar(type_of(p, c)) && a == node && b == node && is_comparable(type_of(p, node))
}

pub fn cast_fits(p: &Program, node: TyId, operand: TyId) -> bool
    ensures { result ≡ spec.cast_fits p.now.types node operand }
{
    casts(type_of(p, operand), type_of(p, node)) && is_named(p.types.parts(), node)
}

pub fn load_fits(p: &Program, node: TyId, place: TyId) -> bool
    ensures { result ≡ spec.load_fits p.now.types node place }
{
    place == node && !is_array(type_of(p, node))
}

pub fn address_fits(p: &Program, node: TyId, place: TyId) -> bool
    ensures { result ≡ spec.address_fits p.now.types node place }
{
    points_to(type_of(p, node), place) && !is_array(type_of(p, place))
}

pub fn decay_fits(p: &Program, node: TyId, place: TyId) -> bool
    ensures { result ≡ spec.decay_fits p.now.types node place }
{
    is_decayed(type_of(p, place), type_of(p, node))
}

pub fn item_fits(p: &Program, node: TyId, pointer: TyId, index: TyId) -> bool
    ensures { result ≡ spec.item_fits p.now.types node pointer index }
{
    points_to(type_of(p, pointer), node) && is_long_long(type_of(p, index))
}

pub fn element_fits(p: &Program, node: TyId, array: TyId, index: TyId) -> bool
    ensures { result ≡ spec.element_fits p.now.types node array index }
{
    is_array_of(type_of(p, array), node) && is_long_long(type_of(p, index))
}

fn number_limit(kind: IntKind) -> i128
    ensures { result ≡ pos (spec.number_limit kind) }
{
    match kind {
        IntKind::Int => 1 << 31,
        IntKind::UInt => 1 << 32,
        IntKind::LongLong => 1 << 63,
        IntKind::ULongLong => 1 << 64,
        _ => 0,
    }
}

/// Whether a text can write the number in the type.
pub fn is_number(ty: Option<Ty>, z: i128) -> bool
    ensures { result ≡ spec.is_number ty z }
{
    match ty {
        Some(Ty::Int(kind)) => 0 <= z && z < number_limit(kind),
        _ => false,
    }
}
