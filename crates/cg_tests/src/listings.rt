// The code of functions as listings. Each was written by hand, from the text and the table of instructions.
//
// An int's scalar kind and type number is 4, a long long's type number 6, a pointer's kind 8. `m_in` and `m_out` stand at the
// first two addresses, and then the globals of the text, each at the next multiple of 16 that is 16 bytes or more behind the one before.
// An index is converted to long long. In an assignment the right side comes before the place.

use crate::driver::{code_of, listing};
use crate::servers::{LOOP, SHARED, SUM, UNION};
use bm_isa::Instr;
use std::alloc::Global;
use std::test::Fail;

const M_IN: u64 = 0x1000;

const M_OUT: u64 = 0x1030;

/// The address of the first global of a text.
const THIRD: u64 = 0x1060;

/// The address of the second global, where the first has 4 bytes.
const FOURTH: u64 = 0x1080;

const TURNS: &str = r##"int n;
void init(void) { }
void on_message(void) {
  int i = 3;
  while (i > 0 && n != 9) { i = i - 1; if (i == 1) continue; else n = n + i; }
}
"##;

/// The code of `on_message` of `SUM`.
const SUM_CODE: [Instr; 35] = [
    // n = n + m_in.arg[0];
    Instr::Const { value: THIRD },
    Instr::Load { kind: 4 },
    Instr::Const { value: M_IN },
    Instr::Field { offset: 8 },
    Instr::Const { value: 0 },
    Instr::Normalize { int_type: 6 },
    Instr::Index { count: 6, size: 4 },
    Instr::Load { kind: 4 },
    Instr::Add,
    Instr::Normalize { int_type: 4 },
    Instr::Const { value: THIRD },
    Instr::Store { kind: 4 },
    // m_out.type = m_in.type + 100;
    Instr::Const { value: M_IN },
    Instr::Field { offset: 4 },
    Instr::Load { kind: 4 },
    Instr::Const { value: 100 },
    Instr::Add,
    Instr::Normalize { int_type: 4 },
    Instr::Const { value: M_OUT },
    Instr::Field { offset: 4 },
    Instr::Store { kind: 4 },
    // m_out.arg[0] = n;
    Instr::Const { value: THIRD },
    Instr::Load { kind: 4 },
    Instr::Const { value: M_OUT },
    Instr::Field { offset: 8 },
    Instr::Const { value: 0 },
    Instr::Normalize { int_type: 6 },
    Instr::Index { count: 6, size: 4 },
    Instr::Store { kind: 4 },
    // send(m_in.source);
    Instr::Const { value: M_IN },
    Instr::Field { offset: 0 },
    Instr::Load { kind: 4 },
    Instr::SendMessage,
    Instr::Pop,
    // }
    Instr::Return,
];

/// The code of `on_message` of `LOOP`.
const LOOP_CODE: [Instr; 39] = [
    // int i;
    Instr::Const { value: 0 },
    Instr::SetLocal { local: 0 },
    // i = 0
    Instr::Const { value: 0 },
    Instr::SetLocal { local: 0 },
    // 4: i < 10
    Instr::GetLocal { local: 0 },
    Instr::Const { value: 10 },
    Instr::LessSigned,
    Instr::JumpIfZero { target: 21 },
    // n = n + 1;
    Instr::Const { value: THIRD },
    Instr::Load { kind: 4 },
    Instr::Const { value: 1 },
    Instr::Add,
    Instr::Normalize { int_type: 4 },
    Instr::Const { value: THIRD },
    Instr::Store { kind: 4 },
    // 15: i = i + 1, and back to the condition
    Instr::GetLocal { local: 0 },
    Instr::Const { value: 1 },
    Instr::Add,
    Instr::Normalize { int_type: 4 },
    Instr::SetLocal { local: 0 },
    Instr::Jump { target: 4 },
    // 21: m_out.type = 1;
    Instr::Const { value: 1 },
    Instr::Const { value: M_OUT },
    Instr::Field { offset: 4 },
    Instr::Store { kind: 4 },
    // m_out.arg[0] = n;
    Instr::Const { value: THIRD },
    Instr::Load { kind: 4 },
    Instr::Const { value: M_OUT },
    Instr::Field { offset: 8 },
    Instr::Const { value: 0 },
    Instr::Normalize { int_type: 6 },
    Instr::Index { count: 6, size: 4 },
    Instr::Store { kind: 4 },
    // send(m_in.source);
    Instr::Const { value: M_IN },
    Instr::Field { offset: 0 },
    Instr::Load { kind: 4 },
    Instr::SendMessage,
    Instr::Pop,
    // }
    Instr::Return,
];

/// The code of `init` of `UNION`. The member number of `it.v` stands 4 bytes behind the start of `it`, and its
/// members 4 bytes behind that.
const UNION_CODE: [Instr; 10] = [
    // x = 4;
    Instr::Const { value: 4 },
    Instr::Const { value: THIRD },
    Instr::Store { kind: 4 },
    // it.v.p = &x;
    Instr::Const { value: THIRD },
    Instr::Const { value: FOURTH },
    Instr::Field { offset: 4 },
    Instr::WriteUnion {
        member: 1,
        offset: 4,
        size: 4,
    },
    Instr::Field { offset: 4 },
    Instr::Store { kind: 8 },
    // }
    Instr::Return,
];

/// The code of `init` of `SHARED`, whose first function is `mk`.
const SHARED_CODE: [Instr; 15] = [
    // struct node *s = mk(7, 0);
    Instr::Const { value: 7 },
    Instr::Const { value: 0 },
    Instr::Call { function: 0 },
    Instr::SetLocal { local: 0 },
    // a = mk(1, s);
    Instr::Const { value: 1 },
    Instr::GetLocal { local: 0 },
    Instr::Call { function: 0 },
    Instr::Const { value: THIRD },
    Instr::Store { kind: 8 },
    // b = mk(2, s);
    Instr::Const { value: 2 },
    Instr::GetLocal { local: 0 },
    Instr::Call { function: 0 },
    Instr::Const { value: FOURTH },
    Instr::Store { kind: 8 },
    // }
    Instr::Return,
];

/// The code of `on_message` of `TURNS`.
const TURNS_CODE: [Instr; 37] = [
    // int i = 3;
    Instr::Const { value: 3 },
    Instr::SetLocal { local: 0 },
    // 2: i > 0
    Instr::GetLocal { local: 0 },
    Instr::Const { value: 0 },
    Instr::Swap,
    Instr::LessSigned,
    // && n != 9, which gives 0 or 1
    Instr::JumpIfZero { target: 15 },
    Instr::Const { value: THIRD },
    Instr::Load { kind: 4 },
    Instr::Const { value: 9 },
    Instr::Equal,
    Instr::Not,
    Instr::Not,
    Instr::Not,
    Instr::Jump { target: 16 },
    // 15: the left operand is 0
    Instr::Const { value: 0 },
    // 16: the loop is left
    Instr::JumpIfZero { target: 36 },
    // i = i - 1;
    Instr::GetLocal { local: 0 },
    Instr::Const { value: 1 },
    Instr::Subtract,
    Instr::Normalize { int_type: 4 },
    Instr::SetLocal { local: 0 },
    // if (i == 1)
    Instr::GetLocal { local: 0 },
    Instr::Const { value: 1 },
    Instr::Equal,
    Instr::JumpIfZero { target: 28 },
    // continue;
    Instr::Jump { target: 35 },
    Instr::Jump { target: 35 },
    // 28: else n = n + i;
    Instr::Const { value: THIRD },
    Instr::Load { kind: 4 },
    Instr::GetLocal { local: 0 },
    Instr::Add,
    Instr::Normalize { int_type: 4 },
    Instr::Const { value: THIRD },
    Instr::Store { kind: 4 },
    // 35: back to the condition
    Instr::Jump { target: 2 },
    // 36: }
    Instr::Return,
];

/// Whether a function of a text has these instructions.
fn has_code(alloc: Global, text: &str, name: &str, want: &[Instr]) -> Result<bool, Fail> {
    let code = code_of(alloc, text)?;
    Ok(listing(code.machine(), name)? == want)
}

#[test]
fn assignments_have_this_code(rt: HostRuntime) -> Result<(), Fail> {
    assert!(rt; has_code(rt.alloc(), SUM, "on_message", &SUM_CODE)?);
    Ok(())
}

#[test]
fn a_for_has_this_code(rt: HostRuntime) -> Result<(), Fail> {
    assert!(rt; has_code(rt.alloc(), LOOP, "on_message", &LOOP_CODE)?);
    Ok(())
}

#[test]
fn an_assigned_union_has_this_code(rt: HostRuntime) -> Result<(), Fail> {
    assert!(rt; has_code(rt.alloc(), UNION, "init", &UNION_CODE)?);
    Ok(())
}

#[test]
fn calls_have_this_code(rt: HostRuntime) -> Result<(), Fail> {
    assert!(rt; has_code(rt.alloc(), SHARED, "init", &SHARED_CODE)?);
    Ok(())
}

#[test]
fn a_while_has_this_code(rt: HostRuntime) -> Result<(), Fail> {
    assert!(rt; has_code(rt.alloc(), TURNS, "on_message", &TURNS_CODE)?);
    Ok(())
}
