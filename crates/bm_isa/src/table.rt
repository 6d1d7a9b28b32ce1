// The table of the instructions: the number and the operands of each, and the instruction that has them.

ghost use Rattle.std.specs.Prelude.{◌≡◌, ◌≢◌, MatchOption};
ghost use Rattle.bm_isa.specs.Encoding.{parts_of};
ghost use Rattle.bm_isa.specs.declared.instr.Instr.{Instr};
ghost use Rattle.bm_isa.specs.declared.instr.Operands.{Operands};

use crate::instr::{Instr, Operands};

/// The number of an instruction, and its operands.
#[tactic(auto, unfolding(crate::specs::Encoding::parts_of))]
pub(crate) fn parts(instr: Instr) -> (u8, Operands)
    ensures { result ≡ parts_of instr }
{
    match instr {
        Instr::Const { value } => (1, Operands::Word(value)),
        Instr::GetLocal { local } => (2, Operands::One(local)),
        Instr::SetLocal { local } => (3, Operands::One(local)),
        Instr::Pop => (4, Operands::Nothing),
        Instr::Duplicate => (5, Operands::Nothing),
        Instr::Add => (6, Operands::Nothing),
        Instr::Subtract => (7, Operands::Nothing),
        Instr::Multiply => (8, Operands::Nothing),
        Instr::DivideSigned => (9, Operands::Nothing),
        Instr::DivideUnsigned => (10, Operands::Nothing),
        Instr::RemainderSigned => (11, Operands::Nothing),
        Instr::RemainderUnsigned => (12, Operands::Nothing),
        Instr::And => (13, Operands::Nothing),
        Instr::Or => (14, Operands::Nothing),
        Instr::Xor => (15, Operands::Nothing),
        Instr::ShiftLeft { width } => (16, Operands::One(width)),
        Instr::ShiftRightSigned { width } => (17, Operands::One(width)),
        Instr::ShiftRightUnsigned { width } => (18, Operands::One(width)),
        Instr::Normalize { int_type } => (19, Operands::One(int_type)),
        Instr::Equal => (20, Operands::Nothing),
        Instr::LessSigned => (21, Operands::Nothing),
        Instr::LessUnsigned => (22, Operands::Nothing),
        Instr::Not => (23, Operands::Nothing),
        Instr::Jump { target } => (24, Operands::One(target)),
        Instr::JumpIfZero { target } => (25, Operands::One(target)),
        Instr::AddPointer { size } => (26, Operands::One(size)),
        Instr::SubtractPointer { size } => (27, Operands::One(size)),
        Instr::PointerDifference { size } => (28, Operands::One(size)),
        Instr::PointerLess => (29, Operands::Nothing),
        Instr::CheckPointer { type_number } => (30, Operands::One(type_number)),
        Instr::Field { offset } => (31, Operands::One(offset)),
        Instr::Index { count, size } => (32, Operands::Two(count, size)),
        Instr::IndexEnd { count, size } => (33, Operands::Two(count, size)),
        Instr::Load { kind } => (34, Operands::One(kind)),
        Instr::Store { kind } => (35, Operands::One(kind)),
        Instr::CopyBytes { size } => (36, Operands::One(size)),
        Instr::ReadUnion { member } => (37, Operands::One(member)),
        Instr::WriteUnion {
            member,
            offset,
            size,
        } => (38, Operands::Three(member, offset, size)),
        Instr::Call { function } => (39, Operands::One(function)),
        Instr::CallIndirect { arguments } => (40, Operands::One(arguments)),
        Instr::Return => (41, Operands::Nothing),
        Instr::ReturnValue => (42, Operands::Nothing),
        Instr::Swap => (43, Operands::Nothing),
        Instr::Allocate { site } => (44, Operands::One(site)),
        Instr::Free => (45, Operands::Nothing),
        Instr::SendMessage => (46, Operands::Nothing),
        Instr::Panic => (47, Operands::Nothing),
    }
}

/// The instruction with this number and no operands, if there is one.
#[tactic(auto, unfolding(crate::specs::Encoding::parts_of))]
pub(crate) fn without_operands(number: u8) -> Option<Instr>
    ensures { MatchOption result ((i : Instr) → parts_of i ≢ (number, Operands.Nothing)) (λ i. parts_of i ≡ (number, Operands.Nothing)) }
{
    match number {
        4 => Some(Instr::Pop),
        5 => Some(Instr::Duplicate),
        6 => Some(Instr::Add),
        7 => Some(Instr::Subtract),
        8 => Some(Instr::Multiply),
        9 => Some(Instr::DivideSigned),
        10 => Some(Instr::DivideUnsigned),
        11 => Some(Instr::RemainderSigned),
        12 => Some(Instr::RemainderUnsigned),
        13 => Some(Instr::And),
        14 => Some(Instr::Or),
        15 => Some(Instr::Xor),
        20 => Some(Instr::Equal),
        21 => Some(Instr::LessSigned),
        22 => Some(Instr::LessUnsigned),
        23 => Some(Instr::Not),
        29 => Some(Instr::PointerLess),
        41 => Some(Instr::Return),
        42 => Some(Instr::ReturnValue),
        43 => Some(Instr::Swap),
        45 => Some(Instr::Free),
        46 => Some(Instr::SendMessage),
        47 => Some(Instr::Panic),
        _ => None,
    }
}

/// The instruction with this number and that one operand, if there is one.
#[tactic(auto, unfolding(crate::specs::Encoding::parts_of))]
pub(crate) fn with_one(number: u8, a: u32) -> Option<Instr>
    ensures { MatchOption result ((i : Instr) → parts_of i ≢ (number, (Operands.One a))) (λ i. parts_of i ≡ (number, (Operands.One a))) }
{
    match number {
        2 => Some(Instr::GetLocal { local: a }),
        3 => Some(Instr::SetLocal { local: a }),
        16 => Some(Instr::ShiftLeft { width: a }),
        17 => Some(Instr::ShiftRightSigned { width: a }),
        18 => Some(Instr::ShiftRightUnsigned { width: a }),
        19 => Some(Instr::Normalize { int_type: a }),
        24 => Some(Instr::Jump { target: a }),
        25 => Some(Instr::JumpIfZero { target: a }),
        26 => Some(Instr::AddPointer { size: a }),
        27 => Some(Instr::SubtractPointer { size: a }),
        28 => Some(Instr::PointerDifference { size: a }),
        30 => Some(Instr::CheckPointer { type_number: a }),
        31 => Some(Instr::Field { offset: a }),
        34 => Some(Instr::Load { kind: a }),
        35 => Some(Instr::Store { kind: a }),
        36 => Some(Instr::CopyBytes { size: a }),
        37 => Some(Instr::ReadUnion { member: a }),
        39 => Some(Instr::Call { function: a }),
        40 => Some(Instr::CallIndirect { arguments: a }),
        44 => Some(Instr::Allocate { site: a }),
        _ => None,
    }
}

/// The instruction with this number and those two operands, if there is one.
#[tactic(auto, unfolding(crate::specs::Encoding::parts_of))]
pub(crate) fn with_two(number: u8, a: u32, b: u32) -> Option<Instr>
    ensures { MatchOption result ((i : Instr) → parts_of i ≢ (number, (Operands.Two a b))) (λ i. parts_of i ≡ (number, (Operands.Two a b))) }
{
    match number {
        32 => Some(Instr::Index { count: a, size: b }),
        33 => Some(Instr::IndexEnd { count: a, size: b }),
        _ => None,
    }
}

/// The instruction with this number and those three operands, if there is one.
#[tactic(auto, unfolding(crate::specs::Encoding::parts_of))]
pub(crate) fn with_three(number: u8, a: u32, b: u32, c: u32) -> Option<Instr>
    ensures { MatchOption result ((i : Instr) → parts_of i ≢ (number, (Operands.Three a b c))) (λ i. parts_of i ≡ (number, (Operands.Three a b c))) }
{
    match number {
        38 => Some(Instr::WriteUnion {
            member: a,
            offset: b,
            size: c,
        }),
        _ => None,
    }
}

/// The instruction with this number and that word as its operand, if there is one.
#[tactic(auto, unfolding(crate::specs::Encoding::parts_of))]
pub(crate) fn with_word(number: u8, word: u64) -> Option<Instr>
    ensures { MatchOption result ((i : Instr) → parts_of i ≢ (number, (Operands.Word word))) (λ i. parts_of i ≡ (number, (Operands.Word word))) }
{
    match number {
        1 => Some(Instr::Const { value: word }),
        _ => None,
    }
}
