// What a binary operator takes.

ghost use Rattle.std.specs.Prelude.{◌≡◌};
ghost use Rattle.c_check_scope.specs.Operations.{works, arithmetic, shift, sum, difference, comparison, logic, operation_of};

use crate::kinds::is_scalar;
use crate::operand::{Operand, common_type, compared, ordered, promoted_type};
use c_ast::expr::BinaryOperator;
use c_types::{IntKind, Ty};
use src_tree::expr::{BinaryOperator as Operator, LogicalOperator};

/// The type `int`, which comparisons give.
pub const INT: Ty = Ty::Int(IntKind::Int);

/// The type `long long`, in which addends and indices are.
pub const LONG_LONG: Ty = Ty::Int(IntKind::LongLong);

/// The node that a binary operator becomes.
#[derive(Clone, Copy, Debug, PartialEq, Eq)]
pub enum Node {
    Binary(Operator),
    Logical(LogicalOperator),
}

/// A binary operator on operands that fit it.
#[derive(Clone, Copy, Debug, PartialEq, Eq)]
pub struct Operation {
    pub node: Node,
    /// The type to which the left operand is converted.
    pub left: Ty,
    /// The type to which the right operand is converted.
    pub right: Ty,
    /// The type of the result.
    pub result: Ty,
}

#[tactic(auto, unfolding(crate::specs::Operations::works))]
fn works(operator: Operator, left: Ty, right: Ty, answer: Ty) -> Operation
    ensures { result ≡ works operator left right answer }
{
    Operation {
        node: Node::Binary(operator),
        left,
        right,
        result: answer,
    }
}

#[tactic(auto, unfolding(crate::specs::Operations::arithmetic))]
fn arithmetic(operator: Operator, a: Ty, b: Ty) -> Option<Operation>
    ensures { result ≡ arithmetic operator a b }
{
    match common_type(a, b) {
        None => None,
        Some(ty) => Some(works(operator, ty, ty, ty)),
    }
}

#[tactic(auto, unfolding(crate::specs::Operations::shift))]
fn shift(operator: Operator, a: Ty, b: Ty) -> Option<Operation>
    ensures { result ≡ shift operator a b }
{
    match promoted_type(a) {
        None => None,
        Some(left) => match promoted_type(b) {
            None => None,
            Some(right) => Some(works(operator, left, right, left)),
        },
    }
}

#[tactic(auto, unfolding(crate::specs::Operations::sum))]
fn sum(a: Ty, b: Ty) -> Option<Operation>
    ensures { result ≡ sum a b }
{
    match (a, b) {
        (Ty::Pointer(_), Ty::Int(_)) => Some(works(Operator::PointerAdd, a, LONG_LONG, a)),
        (Ty::Int(_), Ty::Pointer(_)) => Some(works(Operator::AddPointer, LONG_LONG, b, b)),
        _ => arithmetic(Operator::Add, a, b),
    }
}

#[tactic(auto, unfolding(crate::specs::Operations::difference))]
fn difference(a: Ty, b: Ty) -> Option<Operation>
    ensures { result ≡ difference a b }
{
    match (a, b) {
        (Ty::Pointer(_), Ty::Int(_)) => Some(works(Operator::PointerSubtract, a, LONG_LONG, a)),
        (Ty::Pointer(t), Ty::Pointer(u)) => {
            if t == u {
                Some(works(Operator::PointerDifference, a, a, INT))
            } else {
                None
            }
        }
        _ => arithmetic(Operator::Subtract, a, b),
    }
}

#[tactic(auto, unfolding(crate::specs::Operations::comparison))]
fn comparison(operator: Operator, meeting: Option<Ty>) -> Option<Operation>
    ensures { result ≡ comparison operator meeting }
{
    match meeting {
        None => None,
        Some(ty) => Some(works(operator, ty, ty, INT)),
    }
}

#[tactic(auto, unfolding(crate::specs::Operations::logic))]
fn logic(operator: LogicalOperator, a: Ty, b: Ty) -> Option<Operation>
    ensures { result ≡ logic operator a b }
{
    if is_scalar(a) && is_scalar(b) {
        Some(Operation {
            node: Node::Logical(operator),
            left: a,
            right: b,
            result: INT,
        })
    } else {
        None
    }
}

/// What an operator does with these operands; none where they don't fit it.
/// `* / % & ^ |` and `<< >>` take integers; `+` also a pointer and an integer in either order, and `-` a pointer and
/// an integer or two pointers of one type, none of them `void *` or a function pointer; `< <= > >=` integers or two
/// pointers of one type other than function pointers; `== !=` besides two function pointers of one type, a pointer and
/// the literal 0, and a `void *` and a pointer to an object; `&& ||` scalars.
#[tactic(auto, unfolding(crate::specs::Operations::operation_of))]
pub fn operation_of(operator: BinaryOperator, a: Operand, b: Operand) -> Option<Operation>
    ensures { result ≡ operation_of operator a b }
{
    match operator {
        BinaryOperator::Multiply => arithmetic(Operator::Multiply, a.ty, b.ty),
        BinaryOperator::Divide => arithmetic(Operator::Divide, a.ty, b.ty),
        BinaryOperator::Remainder => arithmetic(Operator::Remainder, a.ty, b.ty),
        BinaryOperator::Add => sum(a.ty, b.ty),
        BinaryOperator::Subtract => difference(a.ty, b.ty),
        BinaryOperator::ShiftLeft => shift(Operator::ShiftLeft, a.ty, b.ty),
        BinaryOperator::ShiftRight => shift(Operator::ShiftRight, a.ty, b.ty),
        BinaryOperator::Less => comparison(Operator::Less, ordered(a.ty, b.ty)),
        BinaryOperator::LessEqual => comparison(Operator::LessEqual, ordered(a.ty, b.ty)),
        BinaryOperator::Greater => comparison(Operator::Greater, ordered(a.ty, b.ty)),
        BinaryOperator::GreaterEqual => comparison(Operator::GreaterEqual, ordered(a.ty, b.ty)),
        BinaryOperator::Equal => comparison(Operator::Equal, compared(a, b)),
        BinaryOperator::NotEqual => comparison(Operator::NotEqual, compared(a, b)),
        BinaryOperator::BitAnd => arithmetic(Operator::BitAnd, a.ty, b.ty),
        BinaryOperator::BitXor => arithmetic(Operator::BitXor, a.ty, b.ty),
        BinaryOperator::BitOr => arithmetic(Operator::BitOr, a.ty, b.ty),
        BinaryOperator::And => logic(LogicalOperator::And, a.ty, b.ty),
        BinaryOperator::Or => logic(LogicalOperator::Or, a.ty, b.ty),
    }
}
