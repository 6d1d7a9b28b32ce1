//! Expressions whose value the text alone decides, and their evaluation.

ghost use Rattle.std.specs.Prelude.{◌≡◌, ℕ, Some, Ok, IsTrue, nat_lt};
ghost use Rattle.lu_spec.specs.Then.{then_do};
ghost use Rattle.c_types.specs.declared.parts.Parts.{Parts};
ghost use Rattle.src_tree.specs.declared.value.Store.{Store};
ghost use Rattle.src_tree.specs.declared.value.Value as V;
ghost use Rattle.src_meaning.specs.Operators.{is_true, converted, flagged, unary, binary};
ghost use Rattle.src_meaning.specs.Expression.{logical, chosen, value_of};
ghost use Rattle.src_meaning.specs.Constant.{kind_at, takes_integers, is_integer_constant, is_zero_literal, is_null_constant, constant_value, evaluated, int_value, if_ok};
ghost use Rattle.src_meaning.specs.Initial.{global_count, initial_scope, start_of};

use crate::integers;
use crate::valid_fits::type_of;
use crate::valid_types::{is_array, is_int, is_integer, is_pointer};
use c_types::{IntKind, Ty, TyId};
use lu_base::Trap;
use src_meaning::constant::Constant;
use src_tree::expr::{
    BinaryOperator, ExprKind, LogicalOperator, PlaceKind, TypedExpr, TypedPlace, UnaryOperator,
};
use src_tree::program::Program;

fn kind_at(p: &Program, number: TyId) -> Option<IntKind>
    ensures { result ≡ kind_at p.now.types number }
{
    match p.types.parts().find_type(number) {
        Some(Ty::Int(kind)) => Some(kind),
        _ => None,
    }
}

fn takes_integers(operator: BinaryOperator) -> bool
    ensures { result ≡ takes_integers operator }
{
    match operator {
        BinaryOperator::PointerAdd
        | BinaryOperator::AddPointer
        | BinaryOperator::PointerSubtract
        | BinaryOperator::PointerDifference => false,
        _ => true,
    }
}

/// Whether the expression has only numbers, characters, `sizeof`, casts, conversions and operators, each node of an
/// integer type.
pub fn is_integer_constant(p: &Program, e: &TypedExpr) -> bool
    ensures { result ≡ is_integer_constant p.now.types e.now.ty e.now.kind }
{
    let is_integer = is_integer(type_of(p, e.ty));
    match &e.kind {
        ExprKind::Number(_) | ExprKind::SizeOf(_) => is_integer,
        ExprKind::Cast(inner) => is_integer & is_integer_constant(p, inner.get()),
        ExprKind::Convert(inner) => is_integer & is_integer_constant(p, inner.get()),
        ExprKind::Unary(_, inner) => is_integer & is_integer_constant(p, inner.get()),
        ExprKind::Binary(operator, a, b) => {
            is_integer
                & takes_integers(*operator)
                & is_integer_constant(p, a.get())
                & is_integer_constant(p, b.get())
        }
        ExprKind::Logical(_, a, b) => {
            is_integer & is_integer_constant(p, a.get()) & is_integer_constant(p, b.get())
        }
        ExprKind::Conditional(c, a, b) => {
            is_integer
                & is_integer_constant(p, c.get())
                & is_integer_constant(p, a.get())
                & is_integer_constant(p, b.get())
        }
        ExprKind::Local(_) | ExprKind::Function(_) => false,
        ExprKind::Load(_) | ExprKind::AddressOf(_) | ExprKind::Decay(_) => false,
    }
}

fn unary(kind: IntKind, operator: UnaryOperator, z: i128) -> i128
    ensures { (p : Parts) (t : ℕ) → kind_at p t ≡ Some kind → unary p t operator (V.Int z) ≡ Ok (V.Int result) }
{
    match operator {
        UnaryOperator::Minus => integers::negate(kind, z),
        UnaryOperator::Complement => integers::complement(kind, z),
        UnaryOperator::Not => integers::flag(z == 0),
    }
}

fn binary(kind: IntKind, operator: BinaryOperator, a: i128, b: i128) -> Result<i128, Trap>
    ensures { IsTrue (takes_integers operator) → (p : Parts) (store : Store) (t s : ℕ) → kind_at p t ≡ Some kind
        → binary p store t s operator (V.Int a) (V.Int b) ≡ int_value result }
{
    match operator {
        BinaryOperator::Add => Ok(integers::add(kind, a, b)),
        BinaryOperator::Subtract => Ok(integers::subtract(kind, a, b)),
        BinaryOperator::Multiply => Ok(integers::multiply(kind, a, b)),
        BinaryOperator::Divide => integers::divide(kind, a, b),
        BinaryOperator::Remainder => integers::remainder(kind, a, b),
        BinaryOperator::BitAnd => Ok(integers::and_bits(kind, a, b)),
        BinaryOperator::BitXor => Ok(integers::xor_bits(kind, a, b)),
        BinaryOperator::BitOr => Ok(integers::or_bits(kind, a, b)),
        BinaryOperator::ShiftLeft => integers::shift_left(kind, a, b),
        BinaryOperator::ShiftRight => integers::shift_right(kind, a, b),
        BinaryOperator::Less => Ok(integers::flag(a < b)),
        BinaryOperator::LessEqual => Ok(integers::flag(a <= b)),
        BinaryOperator::Greater => Ok(integers::flag(a > b)),
        BinaryOperator::GreaterEqual => Ok(integers::flag(a >= b)),
        BinaryOperator::Equal => Ok(integers::flag(a == b)),
        BinaryOperator::NotEqual => Ok(integers::flag(a != b)),
        BinaryOperator::PointerAdd
        | BinaryOperator::AddPointer
        | BinaryOperator::PointerSubtract
        | BinaryOperator::PointerDifference => Err(Trap::BadCode),
    }
}

fn converted(kind: IntKind, z: Result<i128, Trap>) -> Result<i128, Trap>
    ensures { (p : Parts) (t : ℕ) → kind_at p t ≡ Some kind
        → then_do (int_value z) (converted p t) ≡ int_value result }
{
    match z {
        Ok(z) => Ok(integers::wrap(kind, z)),
        Err(trap) => Err(trap),
    }
}

fn on_one(kind: IntKind, operator: UnaryOperator, z: Result<i128, Trap>) -> Result<i128, Trap>
    ensures { (p : Parts) (t : ℕ) → kind_at p t ≡ Some kind
        → then_do (int_value z) (unary p t operator) ≡ int_value result }
{
    match z {
        Ok(z) => Ok(unary(kind, operator, z)),
        Err(trap) => Err(trap),
    }
}

fn on_two(
    kind: IntKind,
    operator: BinaryOperator,
    a: Result<i128, Trap>,
    b: Result<i128, Trap>,
) -> Result<i128, Trap>
    ensures { IsTrue (takes_integers operator) → (p : Parts) (store : Store) (t s : ℕ) → kind_at p t ≡ Some kind
        → then_do (int_value a) (λ v. then_do (int_value b) (λ w. binary p store t s operator v w)) ≡ int_value result }
{
    match (a, b) {
        (Err(trap), _) => Err(trap),
        (Ok(_), Err(trap)) => Err(trap),
        (Ok(a), Ok(b)) => binary(kind, operator, a, b),
    }
}

/// Whether a number is other than zero.
fn test(z: Result<i128, Trap>) -> Result<bool, Trap>
    ensures { result ≡ then_do (int_value z) is_true }
{
    match z {
        Ok(z) => Ok(z != 0),
        Err(trap) => Err(trap),
    }
}

fn flagged(test: Result<bool, Trap>) -> Result<i128, Trap>
    ensures { flagged test ≡ int_value result }
{
    match test {
        Ok(holds) => Ok(integers::flag(holds)),
        Err(trap) => Err(trap),
    }
}

fn logical(
    operator: LogicalOperator,
    a: Result<bool, Trap>,
    b: Result<bool, Trap>,
) -> Result<bool, Trap>
    ensures { result ≡ logical operator a b }
{
    match (operator, a) {
        (_, Err(trap)) => Err(trap),
        (LogicalOperator::And, Ok(false)) => Ok(false),
        (LogicalOperator::Or, Ok(true)) => Ok(true),
        _ => b,
    }
}

fn chosen(c: Result<bool, Trap>, a: Result<i128, Trap>, b: Result<i128, Trap>) -> Result<i128, Trap>
    ensures { chosen c (int_value a) (int_value b) ≡ int_value result }
{
    match c {
        Ok(true) => a,
        Ok(false) => b,
        Err(trap) => Err(trap),
    }
}

/// The value of an integer constant, or its trap. Each operand is evaluated, but one that its operator doesn't take
/// gives no trap.
pub fn integer(p: &Program, e: &TypedExpr) -> Result<i128, Trap>
    ensures { IsTrue (is_integer_constant p.now.types e.now.ty e.now.kind)
        → value_of (initial_scope p.now) e.now.ty e.now.kind ≡ int_value result }
{
    let Some(kind) = kind_at(p, e.ty) else {
        return Err(Trap::BadCode);
    };
    match &e.kind {
        ExprKind::Number(z) => Ok(*z),
        ExprKind::SizeOf(number) => Ok(p.types.size_of(*number) as i128),
        ExprKind::Cast(inner) => converted(kind, integer(p, inner.get())),
        ExprKind::Convert(inner) => converted(kind, integer(p, inner.get())),
        ExprKind::Unary(operator, inner) => on_one(kind, *operator, integer(p, inner.get())),
        ExprKind::Binary(operator, a, b) => {
            on_two(kind, *operator, integer(p, a.get()), integer(p, b.get()))
        }
        ExprKind::Logical(operator, a, b) => {
            let a = test(integer(p, a.get()));
            let b = test(integer(p, b.get()));
            flagged(logical(*operator, a, b))
        }
        ExprKind::Conditional(c, a, b) => {
            let a = integer(p, a.get());
            let b = integer(p, b.get());
            chosen(test(integer(p, c.get())), a, b)
        }
        _ => Err(Trap::BadCode),
    }
}

/// Whether the expression is the literal 0.
pub fn is_zero_literal(p: &Program, e: &TypedExpr) -> bool
    ensures { result ≡ is_zero_literal p.now.types e.now.ty e.now.kind }
{
    match &e.kind {
        ExprKind::Number(z) => is_int(type_of(p, e.ty)) && *z == 0,
        _ => false,
    }
}

/// Whether the expression is the literal 0 as a pointer.
pub fn is_null_constant(p: &Program, e: &TypedExpr) -> bool
    ensures { result ≡ is_null_constant p.now.types e.now.ty e.now.kind }
{
    match &e.kind {
        ExprKind::Convert(inner) => is_pointer(type_of(p, e.ty)) & is_zero_literal(p, inner.get()),
        ExprKind::Number(_) | ExprKind::SizeOf(_) => false,
        ExprKind::Local(_) | ExprKind::Function(_) => false,
        ExprKind::Load(_) | ExprKind::AddressOf(_) | ExprKind::Decay(_) => false,
        ExprKind::Cast(_) | ExprKind::Unary(_, _) => false,
        ExprKind::Binary(_, _, _) | ExprKind::Logical(_, _, _) => false,
        ExprKind::Conditional(_, _, _) => false,
    }
}

/// Whether a global of this type has an element 0: an array may have none.
fn has_elements(p: &Program, number: TyId) -> bool
    ensures { result ≡ nat_lt 0 (global_count p.now.types number) }
{
    match p.types.parts().find_type(number) {
        Some(Ty::Array(_, count)) => 0 < count,
        _ => true,
    }
}

/// The address of a global that stands as a place; none where there is no such global.
fn start(p: &Program, place: &TypedPlace) -> Option<Constant>
    ensures { evaluated result ≡ if_ok (start_of p.now place.now) }
{
    let PlaceKind::Global(number) = place.kind else {
        return None;
    };
    let Some(global) = p.globals.get(number as usize) else {
        return None;
    };
    if is_array(type_of(p, place.ty)) || has_elements(p, global.ty) {
        Some(Constant::Start(number))
    } else {
        None
    }
}

/// The value of a constant. None where the expression is no constant, or traps.
pub fn evaluate(p: &Program, e: &TypedExpr) -> Option<Constant>
    ensures { evaluated result ≡ if_ok (constant_value (initial_scope p.now) e.now) }
{
    if is_integer_constant(p, e) {
        return match integer(p, e) {
            Ok(z) => Some(Constant::Int(z)),
            Err(_) => None,
        };
    }
    if is_null_constant(p, e) {
        return Some(Constant::Null);
    }
    match &e.kind {
        ExprKind::Function(number) => Some(Constant::Function(*number)),
        ExprKind::AddressOf(place) => start(p, place.get()),
        ExprKind::Decay(place) => start(p, place.get()),
        ExprKind::Number(_) | ExprKind::SizeOf(_) | ExprKind::Local(_) => None,
        ExprKind::Load(_) => None,
        ExprKind::Cast(_) | ExprKind::Convert(_) | ExprKind::Unary(_, _) => None,
        ExprKind::Binary(_, _, _) | ExprKind::Logical(_, _, _) => None,
        ExprKind::Conditional(_, _, _) => None,
    }
}
