// The instructions by what they work on.

ghost use Rattle.std.specs.Prelude.{◌≡◌};
ghost use Rattle.bm_code.specs.Kinds.{operation_of};

use bm_alu::{Binary, Unary};
use bm_isa::Instr;

/// Moves words between locals and the operand stack.
#[derive(Clone, Copy, Debug, PartialEq, Eq)]
pub enum Stacking {
    Constant(u64),
    GetLocal(u32),
    SetLocal(u32),
    Pop,
    Duplicate,
    Swap,
}

/// Works on two words of which the lower is a pointer. Sizes are in bytes.
#[derive(Clone, Copy, Debug, PartialEq, Eq)]
pub enum Pointing {
    Add(u32),
    Subtract(u32),
    Difference(u32),
    Less,
}

/// Replaces an address by what is read there, or checks it.
#[derive(Clone, Copy, Debug, PartialEq, Eq)]
pub enum Reading {
    /// A live place of this type.
    Check(u32),
    /// A scalar of this kind.
    Load(u32),
    /// A union in which this member is active.
    Union(u32),
}

/// Writes memory.
#[derive(Clone, Copy, Debug, PartialEq, Eq)]
pub enum Writing {
    /// A scalar of this kind.
    Store(u32),
    /// So many bytes.
    Copy(u32),
    /// Makes a member of a union active.
    Union { member: u32, offset: u32, size: u32 },
}

/// Goes on elsewhere.
#[derive(Clone, Copy, Debug, PartialEq, Eq)]
pub enum Transfer {
    Jump(u32),
    JumpIfZero(u32),
    Call(u32),
    CallIndirect(u32),
    Return,
    ReturnValue,
}

/// Asks for something of the machine.
#[derive(Clone, Copy, Debug, PartialEq, Eq)]
pub enum Service {
    Allocate(u32),
    Free,
    Send,
    Panic,
}

/// An instruction by what it works on.
#[derive(Clone, Copy, Debug, PartialEq, Eq)]
pub enum Operation {
    OnStack(Stacking),
    OnWord(Unary),
    OnWords(Binary),
    OnPointers(Pointing),
    Reads(Reading),
    Writes(Writing),
    Transfers(Transfer),
    Serves(Service),
}

/// The operation of an instruction.
#[inline]
pub fn classify(instr: Instr) -> Operation
    ensures { result ≡ operation_of instr }
{
    match instr {
        Instr::Const { value } => Operation::OnStack(Stacking::Constant(value)),
        Instr::GetLocal { local } => Operation::OnStack(Stacking::GetLocal(local)),
        Instr::SetLocal { local } => Operation::OnStack(Stacking::SetLocal(local)),
        Instr::Pop => Operation::OnStack(Stacking::Pop),
        Instr::Duplicate => Operation::OnStack(Stacking::Duplicate),
        Instr::Add => Operation::OnWords(Binary::Add),
        Instr::Subtract => Operation::OnWords(Binary::Subtract),
        Instr::Multiply => Operation::OnWords(Binary::Multiply),
        Instr::DivideSigned => Operation::OnWords(Binary::DivideSigned),
        Instr::DivideUnsigned => Operation::OnWords(Binary::DivideUnsigned),
        Instr::RemainderSigned => Operation::OnWords(Binary::RemainderSigned),
        Instr::RemainderUnsigned => Operation::OnWords(Binary::RemainderUnsigned),
        Instr::And => Operation::OnWords(Binary::And),
        Instr::Or => Operation::OnWords(Binary::Or),
        Instr::Xor => Operation::OnWords(Binary::Xor),
        Instr::ShiftLeft { width } => Operation::OnWords(Binary::ShiftLeft(width)),
        Instr::ShiftRightSigned { width } => Operation::OnWords(Binary::ShiftRightSigned(width)),
        Instr::ShiftRightUnsigned { width } => {
            Operation::OnWords(Binary::ShiftRightUnsigned(width))
        }
        Instr::Normalize { int_type } => Operation::OnWord(Unary::Normalize(int_type)),
        Instr::Equal => Operation::OnWords(Binary::Equal),
        Instr::LessSigned => Operation::OnWords(Binary::LessSigned),
        Instr::LessUnsigned => Operation::OnWords(Binary::LessUnsigned),
        Instr::Not => Operation::OnWord(Unary::Not),
        Instr::Jump { target } => Operation::Transfers(Transfer::Jump(target)),
        Instr::JumpIfZero { target } => Operation::Transfers(Transfer::JumpIfZero(target)),
        Instr::AddPointer { size } => Operation::OnPointers(Pointing::Add(size)),
        Instr::SubtractPointer { size } => Operation::OnPointers(Pointing::Subtract(size)),
        Instr::PointerDifference { size } => Operation::OnPointers(Pointing::Difference(size)),
        Instr::PointerLess => Operation::OnPointers(Pointing::Less),
        Instr::CheckPointer { type_number } => Operation::Reads(Reading::Check(type_number)),
        Instr::Field { offset } => Operation::OnWord(Unary::Field(offset)),
        Instr::Index { count, size } => Operation::OnWords(Binary::Index(count, size)),
        Instr::IndexEnd { count, size } => Operation::OnWords(Binary::IndexEnd(count, size)),
        Instr::Load { kind } => Operation::Reads(Reading::Load(kind)),
        Instr::Store { kind } => Operation::Writes(Writing::Store(kind)),
        Instr::CopyBytes { size } => Operation::Writes(Writing::Copy(size)),
        Instr::ReadUnion { member } => Operation::Reads(Reading::Union(member)),
        Instr::WriteUnion {
            member,
            offset,
            size,
        } => Operation::Writes(Writing::Union {
            member,
            offset,
            size,
        }),
        Instr::Call { function } => Operation::Transfers(Transfer::Call(function)),
        Instr::CallIndirect { arguments } => {
            Operation::Transfers(Transfer::CallIndirect(arguments))
        }
        Instr::Return => Operation::Transfers(Transfer::Return),
        Instr::ReturnValue => Operation::Transfers(Transfer::ReturnValue),
        Instr::Swap => Operation::OnStack(Stacking::Swap),
        Instr::Allocate { site } => Operation::Serves(Service::Allocate(site)),
        Instr::Free => Operation::Serves(Service::Free),
        Instr::SendMessage => Operation::Serves(Service::Send),
        Instr::Panic => Operation::Serves(Service::Panic),
    }
}
