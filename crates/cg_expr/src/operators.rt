// What operators put behind their operands.

ghost use Rattle.std.specs.Prelude.{◌≡◌, ◌++◌, ◌∷◌, [], OnOk};
ghost use Rattle.bm_isa.specs.declared.instr.Instr.TheVariants as I;
ghost use Rattle.src_meaning.specs.Integers.{bits_of};
ghost use Rattle.cg_expr.specs.Pieces as spec;

use crate::scalars::{bits_of, int_number, is_signed};
use crate::target::{put, put_all, size_of, type_of};
use bm_isa::Instr;
use c_types::{Ty, TyId, TypeTable};
use lu_base::Memory;
use src_tree::expr::{BinaryOperator, LogicalOperator, UnaryOperator};

/// The bytes of the elements that a pointer type points to; 0 where it is no such type.
pub fn element_size(types: &TypeTable, number: TyId) -> u32
    ensures { result ≡ spec.element_size types.now number }
{
    match type_of(types, number) {
        Some(Ty::Pointer(element)) => size_of(types, element),
        Some(Ty::Int(_)) | Some(Ty::VoidPointer) | Some(Ty::Function(_)) => 0,
        Some(Ty::Struct(_)) | Some(Ty::Union(_)) | Some(Ty::Array(_, _)) => 0,
        None => 0,
    }
}

/// The bits of an integer type; 0 where the type is none.
fn width_of(ty: Option<Ty>) -> u32
    ensures { result ≡ spec.by_kind ty 0 bits_of }
{
    match ty {
        Some(Ty::Int(kind)) => bits_of(kind),
        Some(Ty::Pointer(_)) | Some(Ty::VoidPointer) | Some(Ty::Function(_)) => 0,
        Some(Ty::Struct(_)) | Some(Ty::Union(_)) | Some(Ty::Array(_, _)) => 0,
        None => 0,
    }
}

/// An order of integers or of pointers.
fn less(ty: Option<Ty>) -> Instr
    ensures { result ≡ spec.less ty }
{
    match ty {
        Some(Ty::Int(kind)) => {
            if is_signed(kind) {
                Instr::LessSigned
            } else {
                Instr::LessUnsigned
            }
        }
        Some(Ty::Pointer(_)) | Some(Ty::VoidPointer) | Some(Ty::Function(_)) => Instr::PointerLess,
        Some(Ty::Struct(_)) | Some(Ty::Union(_)) | Some(Ty::Array(_, _)) => Instr::PointerLess,
        None => Instr::PointerLess,
    }
}

/// One of two instructions by the sign of an integer type, and its result cut to the type.
fn put_arithmetic(
    code: &mut Vec<Instr>,
    ty: Option<Ty>,
    signed: Instr,
    unsigned: Instr,
) -> Result<(), Memory>
    ensures { OnOk result (code.new.items
        ≡ code.old.items ++ spec.arithmetic ty (λ kind. spec.signed_or kind signed unsigned)) }
{
    match ty {
        Some(Ty::Int(kind)) => {
            let int_type = int_number(kind);
            put(code, if is_signed(kind) { signed } else { unsigned })?;
            put(code, Instr::Normalize { int_type })
        }
        Some(Ty::Pointer(_)) | Some(Ty::VoidPointer) | Some(Ty::Function(_)) => Ok(()),
        Some(Ty::Struct(_)) | Some(Ty::Union(_)) | Some(Ty::Array(_, _)) => Ok(()),
        None => Ok(()),
    }
}

/// What stands before the operand.
pub fn put_unary_first(code: &mut Vec<Instr>, operator: UnaryOperator) -> Result<(), Memory>
    ensures { OnOk result (code.new.items ≡ code.old.items ++ spec.unary_first operator) }
{
    match operator {
        UnaryOperator::Minus => put(code, Instr::Const { value: 0 }),
        UnaryOperator::Complement => put(code, Instr::Const { value: u64::MAX }),
        UnaryOperator::Not => Ok(()),
    }
}

/// What stands behind the operand, at a node of a type.
#[tactic(auto, using(crate::proofs::Alike::alike))]
pub fn put_unary_last(
    code: &mut Vec<Instr>,
    ty: Option<Ty>,
    operator: UnaryOperator,
) -> Result<(), Memory>
    ensures { OnOk result (code.new.items ≡ code.old.items ++ spec.unary_last ty operator) }
{
    match operator {
        UnaryOperator::Minus => put_arithmetic(code, ty, Instr::Subtract, Instr::Subtract),
        UnaryOperator::Complement => put_arithmetic(code, ty, Instr::Subtract, Instr::Subtract),
        UnaryOperator::Not => put(code, Instr::Not),
    }
}

/// An operator on two words of an integer type.
#[tactic(auto, using(crate::proofs::Alike::alike))]
fn put_integers(
    code: &mut Vec<Instr>,
    ty: Option<Ty>,
    operator: BinaryOperator,
) -> Result<(), Memory>
    ensures { OnOk result (code.new.items ≡ code.old.items ++ spec.integers_last ty operator) }
{
    let width = width_of(ty);
    match operator {
        BinaryOperator::Add => put_arithmetic(code, ty, Instr::Add, Instr::Add),
        BinaryOperator::Subtract => put_arithmetic(code, ty, Instr::Subtract, Instr::Subtract),
        BinaryOperator::Multiply => put_arithmetic(code, ty, Instr::Multiply, Instr::Multiply),
        BinaryOperator::Divide => {
            put_arithmetic(code, ty, Instr::DivideSigned, Instr::DivideUnsigned)
        }
        BinaryOperator::Remainder => {
            put_arithmetic(code, ty, Instr::RemainderSigned, Instr::RemainderUnsigned)
        }
        BinaryOperator::BitAnd => put_arithmetic(code, ty, Instr::And, Instr::And),
        BinaryOperator::BitXor => put_arithmetic(code, ty, Instr::Xor, Instr::Xor),
        BinaryOperator::BitOr => put_arithmetic(code, ty, Instr::Or, Instr::Or),
        BinaryOperator::ShiftLeft => {
            let shift = Instr::ShiftLeft { width };
            put_arithmetic(code, ty, shift, shift)
        }
        BinaryOperator::ShiftRight => put_arithmetic(
            code,
            ty,
            Instr::ShiftRightSigned { width },
            Instr::ShiftRightUnsigned { width },
        ),
        BinaryOperator::Less | BinaryOperator::LessEqual => Ok(()),
        BinaryOperator::Greater | BinaryOperator::GreaterEqual => Ok(()),
        BinaryOperator::Equal | BinaryOperator::NotEqual => Ok(()),
        BinaryOperator::PointerAdd | BinaryOperator::AddPointer => Ok(()),
        BinaryOperator::PointerSubtract | BinaryOperator::PointerDifference => Ok(()),
    }
}

/// What stands behind both operands, at a node of type `number`; the left operand has type `left`.
pub fn put_binary_last(
    code: &mut Vec<Instr>,
    types: &TypeTable,
    number: TyId,
    left: TyId,
    operator: BinaryOperator,
) -> Result<(), Memory>
    ensures { OnOk result (code.new.items
        ≡ code.old.items ++ spec.binary_last types.now number left operator) }
{
    let less = less(type_of(types, left));
    let size = element_size(types, number);
    match operator {
        BinaryOperator::Less => put(code, less),
        BinaryOperator::LessEqual => put_all(code, &[Instr::Swap, less, Instr::Not]),
        BinaryOperator::Greater => put_all(code, &[Instr::Swap, less]),
        BinaryOperator::GreaterEqual => put_all(code, &[less, Instr::Not]),
        BinaryOperator::Equal => put(code, Instr::Equal),
        BinaryOperator::NotEqual => put_all(code, &[Instr::Equal, Instr::Not]),
        BinaryOperator::PointerAdd => put(code, Instr::AddPointer { size }),
        BinaryOperator::AddPointer => put_all(code, &[Instr::Swap, Instr::AddPointer { size }]),
        BinaryOperator::PointerSubtract => put(code, Instr::SubtractPointer { size }),
        BinaryOperator::PointerDifference => {
            let size = element_size(types, left);
            put(code, Instr::PointerDifference { size })
        }
        BinaryOperator::Add | BinaryOperator::Subtract | BinaryOperator::Multiply => {
            put_integers(code, type_of(types, number), operator)
        }
        BinaryOperator::Divide | BinaryOperator::Remainder => {
            put_integers(code, type_of(types, number), operator)
        }
        BinaryOperator::BitAnd | BinaryOperator::BitXor | BinaryOperator::BitOr => {
            put_integers(code, type_of(types, number), operator)
        }
        BinaryOperator::ShiftLeft | BinaryOperator::ShiftRight => {
            put_integers(code, type_of(types, number), operator)
        }
    }
}

/// What stands behind the left operand before it is looked at.
pub fn put_logical_first(code: &mut Vec<Instr>, operator: LogicalOperator) -> Result<(), Memory>
    ensures { OnOk result (code.new.items ≡ code.old.items ++ spec.logical_first operator) }
{
    match operator {
        LogicalOperator::And => Ok(()),
        LogicalOperator::Or => put(code, Instr::Not),
    }
}

/// What the operator gives where the left operand decides.
fn decided_value(operator: LogicalOperator) -> u64
    ensures { result ≡ spec.decided_value operator }
{
    match operator {
        LogicalOperator::And => 0,
        LogicalOperator::Or => 1,
    }
}

/// What follows where the left operand doesn't decide, and where it does; `end` is the place behind both.
pub fn put_decided(code: &mut Vec<Instr>, end: u32, operator: LogicalOperator) -> Result<(), Memory>
    ensures { OnOk result (code.new.items ≡ code.old.items
        ++ (spec.as_flag ++ (I.Jump end ∷ I.Const (spec.decided_value operator) ∷ []))) }
{
    let value = decided_value(operator);
    let jump = Instr::Jump { target: end };
    put_all(
        code,
        &[Instr::Not, Instr::Not, jump, Instr::Const { value }],
    )
}
