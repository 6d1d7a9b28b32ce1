// Programs by hand, each run to its end, with ample memory. Two globals of eight ints stand at 0x1000 and 0x1030, and the
// first object of the heap at 0x1060.
ghost use Rattle.std.specs.Prelude.{◌≡◌, ◌+◌, [], length, IfOk, OnOk};
ghost use Rattle.std.specs.Bool.{OnTrue};
ghost use Rattle.c_types.specs.Layout.{size_of};
ghost use Rattle.bm_code.specs.declared.code.MachineCode.{MachineCode as CodeValue};
ghost use Rattle.bm_code.specs.Accepted.{IsAccepted, IsAcceptedFunction, HasParameters};
ghost use Rattle.machine_tests.specs.Fit.{AreAccepted};

use bm_code::code::{MachineCode, MachineFunction, MachineGlobal, MachineSite};
use bm_code::stop::Stop;
use bm_cpu::machine::Machine;
use bm_isa::Instr;
use bm_mem::{Bytes, VecBytes};
use c_types::{IntKind, Parts, Sequence, Signature, Ty, TypeTable, well_numbered};
use lu_base::{Bytes8, Name, Trap};
use std::alloc::Global;
use std::test::Fail;

const MINUS_1: u64 = u64::MAX;

const MINUS_2: u64 = u64::MAX - 1;

const MINUS_7: u64 = u64::MAX - 6;

const BAD_CODE: Stop = Stop::Trapped(Trap::BadCode);

/// An instruction on two words with 9 below, and what its function returns then.
type Case = (u64, u64, Instr, Stop);

const FRAME: [Case; 41] = [
    (1, 2, Instr::Const { value: 3 }, Stop::Returned(3)),
    (1, 2, Instr::GetLocal { local: 1 }, Stop::Returned(0)),
    (1, 2, Instr::GetLocal { local: 2 }, BAD_CODE),
    (1, 2, Instr::SetLocal { local: 1 }, Stop::Returned(1)),
    (1, 2, Instr::SetLocal { local: 2 }, BAD_CODE),
    (1, 2, Instr::Pop, Stop::Returned(1)),
    (1, 2, Instr::Duplicate, Stop::Returned(2)),
    (1, 2, Instr::Swap, Stop::Returned(1)),
    (1, 2, Instr::Add, Stop::Returned(3)),
    (1, 2, Instr::Subtract, Stop::Returned(MINUS_1)),
    (3, 5, Instr::Multiply, Stop::Returned(15)),
    (MINUS_7, 3, Instr::DivideSigned, Stop::Returned(MINUS_2)),
    (1, 0, Instr::DivideSigned, Stop::Trapped(Trap::DivZero)),
    (7, 3, Instr::DivideUnsigned, Stop::Returned(2)),
    (MINUS_7, 3, Instr::RemainderSigned, Stop::Returned(MINUS_1)),
    (7, 3, Instr::RemainderUnsigned, Stop::Returned(1)),
    (12, 10, Instr::And, Stop::Returned(8)),
    (12, 10, Instr::Or, Stop::Returned(14)),
    (12, 10, Instr::Xor, Stop::Returned(6)),
    (
        1,
        31,
        Instr::ShiftLeft { width: 32 },
        Stop::Returned(0x8000_0000),
    ),
    (
        1,
        32,
        Instr::ShiftLeft { width: 32 },
        Stop::Trapped(Trap::BadShift),
    ),
    (1, 1, Instr::ShiftLeft { width: 16 }, BAD_CODE),
    (
        MINUS_2,
        1,
        Instr::ShiftRightSigned { width: 64 },
        Stop::Returned(MINUS_1),
    ),
    (
        MINUS_2,
        63,
        Instr::ShiftRightUnsigned { width: 64 },
        Stop::Returned(1),
    ),
    (
        1,
        255,
        Instr::Normalize { int_type: 0 },
        Stop::Returned(MINUS_1),
    ),
    (1, 255, Instr::Normalize { int_type: 8 }, BAD_CODE),
    (2, 2, Instr::Equal, Stop::Returned(1)),
    (MINUS_1, 0, Instr::LessSigned, Stop::Returned(1)),
    (MINUS_1, 0, Instr::LessUnsigned, Stop::Returned(0)),
    (1, 0, Instr::Not, Stop::Returned(1)),
    (1, 2, Instr::Jump { target: 4 }, Stop::Returned(2)),
    (1, 2, Instr::Jump { target: 5 }, BAD_CODE),
    (1, 0, Instr::JumpIfZero { target: 4 }, Stop::Returned(1)),
    (1, 2, Instr::JumpIfZero { target: 5 }, BAD_CODE),
    (1, 2, Instr::Field { offset: 4 }, Stop::Returned(6)),
    (0, 7, Instr::Index { count: 8, size: 4 }, Stop::Returned(28)),
    (
        0,
        8,
        Instr::Index { count: 8, size: 4 },
        Stop::Trapped(Trap::BadIndex),
    ),
    (
        0,
        8,
        Instr::IndexEnd { count: 8, size: 4 },
        Stop::Returned(32),
    ),
    (
        0,
        9,
        Instr::IndexEnd { count: 8, size: 4 },
        Stop::Trapped(Trap::BadIndex),
    ),
    (1, 2, Instr::Return, BAD_CODE),
    (1, 2, Instr::ReturnValue, Stop::Returned(2)),
];

const MEMORY: [Case; 31] = [
    (
        0x1000,
        8,
        Instr::AddPointer { size: 4 },
        Stop::Returned(0x1020),
    ),
    (
        0x1000,
        9,
        Instr::AddPointer { size: 4 },
        Stop::Trapped(Trap::PtrRange),
    ),
    (5, 0, Instr::AddPointer { size: 4 }, BAD_CODE),
    (
        0x1004,
        1,
        Instr::SubtractPointer { size: 4 },
        Stop::Returned(0x1000),
    ),
    (
        0x1000,
        0x1008,
        Instr::PointerDifference { size: 4 },
        Stop::Returned(MINUS_2),
    ),
    (
        0x1000,
        0x1000,
        Instr::PointerDifference { size: 0 },
        BAD_CODE,
    ),
    (0x1000, 0x1004, Instr::PointerLess, Stop::Returned(1)),
    (
        0x1000,
        0x1030,
        Instr::PointerLess,
        Stop::Trapped(Trap::PtrOrder),
    ),
    (0x1000, 5, Instr::PointerLess, BAD_CODE),
    (
        1,
        0x101c,
        Instr::CheckPointer { type_number: 0 },
        Stop::Returned(0x101c),
    ),
    (
        1,
        0x1020,
        Instr::CheckPointer { type_number: 0 },
        Stop::Trapped(Trap::BadPointer),
    ),
    (1, 0x1000, Instr::CheckPointer { type_number: 2 }, BAD_CODE),
    (1, 0x101c, Instr::Load { kind: 4 }, Stop::Returned(0)),
    (1, 0x101d, Instr::Load { kind: 4 }, BAD_CODE),
    (1, 0x1018, Instr::Load { kind: 10 }, Stop::Returned(0)),
    (1, 0x101c, Instr::Load { kind: 10 }, BAD_CODE),
    (1, 0x1018, Instr::Load { kind: 11 }, Stop::Returned(0)),
    (1, 0x1000, Instr::Load { kind: 12 }, BAD_CODE),
    (1, 0x1018, Instr::Store { kind: 11 }, Stop::Returned(9)),
    (1, 0x101c, Instr::Store { kind: 11 }, BAD_CODE),
    (1, 0x101c, Instr::Store { kind: 4 }, Stop::Returned(9)),
    (1, 0x101d, Instr::Store { kind: 4 }, BAD_CODE),
    (
        0x1000,
        0x1030,
        Instr::CopyBytes { size: 32 },
        Stop::Returned(9),
    ),
    (0x1000, 0x1030, Instr::CopyBytes { size: 33 }, BAD_CODE),
    (
        1,
        0x1000,
        Instr::ReadUnion { member: 0 },
        Stop::Returned(0x1000),
    ),
    (
        1,
        0x1000,
        Instr::ReadUnion { member: 1 },
        Stop::Trapped(Trap::UnionMember),
    ),
    (1, 0x101d, Instr::ReadUnion { member: 0 }, BAD_CODE),
    (
        1,
        0x1000,
        Instr::WriteUnion {
            member: 1,
            offset: 4,
            size: 28,
        },
        Stop::Returned(0x1000),
    ),
    (
        1,
        0x1000,
        Instr::WriteUnion {
            member: 1,
            offset: 4,
            size: 29,
        },
        BAD_CODE,
    ),
    (1, 0, Instr::Free, Stop::Returned(1)),
    (1, 0x1000, Instr::Free, Stop::Trapped(Trap::BadFree)),
];

/// Function 1 returns nothing, 2 returns 7, and 3 calls itself as often as its argument says.
const CALLS: [Case; 17] = [
    (1, 2, Instr::Call { function: 1 }, Stop::Returned(2)),
    (1, 2, Instr::Call { function: 2 }, Stop::Returned(7)),
    (1, 126, Instr::Call { function: 3 }, Stop::Returned(0)),
    (
        1,
        127,
        Instr::Call { function: 3 },
        Stop::Trapped(Trap::Depth),
    ),
    (1, 2, Instr::Call { function: 4 }, BAD_CODE),
    (1, 2, Instr::Call { function: 5 }, BAD_CODE),
    (1, 2, Instr::Call { function: 6 }, BAD_CODE),
    (1, 2, Instr::Call { function: 7 }, BAD_CODE),
    (
        1,
        3,
        Instr::CallIndirect { arguments: 0 },
        Stop::Returned(7),
    ),
    (
        4,
        1,
        Instr::CallIndirect { arguments: 1 },
        Stop::Returned(0),
    ),
    (
        1,
        0,
        Instr::CallIndirect { arguments: 0 },
        Stop::Trapped(Trap::BadCall),
    ),
    (3, 1, Instr::CallIndirect { arguments: 1 }, BAD_CODE),
    (1, 2, Instr::Allocate { site: 0 }, Stop::Returned(0x1060)),
    (1, 2, Instr::Allocate { site: 1 }, BAD_CODE),
    (1, 101, Instr::SendMessage, Stop::Returned(0)),
    (1, 5, Instr::SendMessage, Stop::Returned(MINUS_2)),
    (1, 3, Instr::Panic, Stop::Trapped(Trap::Panic(3))),
];

/// The signature and the code of functions 1 to 6. 3 calls itself, 4 gives a result that it doesn't have, 5 takes from an
/// empty stack, and the end of 6 is passed.
const OTHERS: [(u32, &[Instr]); 6] = [
    (1, &[Instr::Return]),
    (0, &[Instr::Const { value: 7 }, Instr::ReturnValue]),
    (
        2,
        &[
            Instr::GetLocal { local: 0 },
            Instr::JumpIfZero { target: 6 },
            Instr::GetLocal { local: 0 },
            Instr::Const { value: 1 },
            Instr::Subtract,
            Instr::Call { function: 3 },
            Instr::Const { value: 0 },
            Instr::ReturnValue,
        ],
    ),
    (1, &[Instr::Const { value: 1 }, Instr::ReturnValue]),
    (0, &[Instr::Pop]),
    (0, &[Instr::Const { value: 1 }]),
];

/// Ints, and arrays of eight; `int (void)`, `void (void)` and `int (int)`.
fn int_types(alloc: Global) -> Result<TypeTable, Fail>
    ensures types { IfOk result (λ types. length types.types ≡ 2) }
    ensures structs { IfOk result (λ types. types.structs ≡ []) }
    ensures unions { IfOk result (λ types. types.unions ≡ []) }
{
    let parts = Parts {
        pointer: 4,
        types: Sequence::from_vec(vec![in alloc; Ty::Int(IntKind::Int), Ty::Array(0, 8)]?),
        structs: Sequence::from_vec(Vec::new(alloc)),
        unions: Sequence::from_vec(Vec::new(alloc)),
        signatures: Sequence::from_vec(vec![in alloc;
            Signature {
                result: Some(0),
                params: Sequence::from_vec(Vec::new(alloc))
            },
            Signature {
                result: None,
                params: Sequence::from_vec(Vec::new(alloc))
            },
            Signature {
                result: Some(0),
                params: Sequence::from_vec(vec![in alloc; 0]?)
            },
        ]?),
    };
    if !well_numbered(&parts) {
        return Err("the types are not well numbered".into());
    }
    Ok(TypeTable::build(alloc, parts)?)
}

/// A function of two locals and four words.
fn function(
    alloc: Global,
    types: &TypeTable,
    signature: u32,
    code: &[Instr],
) -> Result<MachineFunction, Fail>
    ensures { IfOk result (λ d. (code : CodeValue) → code.types ≡ types.now → IsAcceptedFunction code d) }
{
    let Some(declared) = types.parts().signatures.as_slice().get(signature as usize) else {
        return Err("there is no such signature".into());
    };
    if declared.params.as_slice().len() > 2 {
        return Err("the parameters are too many".into());
    }
    Ok(MachineFunction {
        name: 0,
        signature,
        locals: 2,
        height: 4,
        code: Sequence::from_vec(code.to_vec(alloc)?),
    })
}

/// Adds a function to others.
fn add_function(
    alloc: Global,
    types: &TypeTable,
    all: &mut Vec<MachineFunction>,
    signature: u32,
    code: &[Instr],
) -> Result<(), Fail>
    requires { AreAccepted types.now all.old.items }
    ensures each { OnOk result (AreAccepted types.now all.new.items) }
    ensures count { OnOk result (length all.new.items ≡ length all.old.items + 1) }
{
    let next = function(alloc, types, signature, code)?;
    all.push(next)?;
    Ok(())
}

fn functions(alloc: Global, types: &TypeTable, main: &[Instr]) -> Result<Vec<MachineFunction>, Fail>
    ensures each { IfOk result (λ all. AreAccepted types.now all.items) }
    ensures count { IfOk result (λ all. length all.items ≡ 7) }
{
    let mut all = Vec::new(alloc);
    add_function(alloc, types, &mut all, 0, main)?;
    for (signature, code) in OTHERS {
        add_function(alloc, types, &mut all, signature, code)?;
    }
    Ok(all)
}

/// A global of eight ints.
fn global(alloc: Global, types: &TypeTable) -> Result<MachineGlobal, Fail>
    ensures name { IfOk result (λ g. g.name ≡ 0) }
    ensures of_ints { IfOk result (λ g. g.ty ≡ 1) }
    ensures size { IfOk result (λ g. size_of types.now 1 ≡ 32) }
    ensures bytes { IfOk result (λ g. length g.bytes ≡ 32) }
{
    if types.size_of(1) != 32 {
        return Err("eight ints do not have 32 bytes".into());
    }
    Ok(MachineGlobal {
        name: 0,
        ty: 1,
        bytes: Bytes8::new(vec![in alloc; 0; 32]?),
    })
}

fn program(alloc: Global, main: &[Instr]) -> Result<MachineCode, Fail>
    ensures { IfOk result (λ code. IsAccepted code) }
{
    let types = int_types(alloc)?;
    let functions = functions(alloc, &types, main)?;
    let input = global(alloc, &types)?;
    let output = global(alloc, &types)?;
    let site = MachineSite {
        function: 0,
        ordinal: 0,
        elem: 0,
    };
    Ok(MachineCode {
        names: Sequence::from_vec(vec![in alloc; Name::new(String::new(alloc))]?),
        types,
        functions: Sequence::from_vec(functions),
        globals: Sequence::from_vec(vec![in alloc; input, output]?),
        sites: Sequence::from_vec(vec![in alloc; site]?),
        filters: 0,
    })
}

/// Whether function 0 has no parameters.
fn is_plain(code: &MachineCode) -> bool
    ensures { OnTrue result (HasParameters code.now 0 0) }
{
    let Some(main) = code.functions.as_slice().first() else {
        return false;
    };
    let Some(signature) = code
        .types
        .parts()
        .signatures
        .as_slice()
        .get(main.signature as usize)
    else {
        return false;
    };
    signature.params.as_slice().is_empty()
}

/// How a call of `main` ends within so many ticks, and after how many pauses, where each run has so many.
fn outcome(alloc: Global, main: &[Instr], ticks: u32, runs: u32) -> Result<(Stop, u32), Fail> {
    let code = program(alloc, main)?;
    if !is_plain(&code) {
        return Err("main has parameters".into());
    }
    let mut machine: Machine<VecBytes> = Machine::new(alloc, &code, VecBytes::fresh(alloc))?;
    machine.start(0, &[]);
    for pauses in 0..runs {
        let stop = machine.run(ticks);
        if stop != Stop::Paused {
            return Ok((stop, pauses));
        }
    }
    Ok((Stop::Paused, runs))
}

/// The index of the first case that doesn't end so.
fn first_wrong(alloc: Global, cases: &[Case]) -> Result<Option<usize>, Fail> {
    for (index, (low, high, instr, want)) in cases.iter().enumerate() {
        let main = [
            Instr::Const { value: 9 },
            Instr::Const { value: *low },
            Instr::Const { value: *high },
            *instr,
            Instr::ReturnValue,
        ];
        let (stop, _) = outcome(alloc, &main, 1_000, 1)?;
        if stop != *want {
            return Ok(Some(index));
        }
    }
    Ok(None)
}

#[test]
fn each_instruction_ends_so(rt: HostRuntime) -> Result<(), Fail> {
    assert_eq!(rt; first_wrong(rt.alloc(), &FRAME)?, None);
    assert_eq!(rt; first_wrong(rt.alloc(), &MEMORY)?, None);
    assert_eq!(rt; first_wrong(rt.alloc(), &CALLS)?, None);
    Ok(())
}

/// A loop of so many turns, each with a call: 1 tick for the entry and 2 for each turn.
fn turns(count: u64) -> [Instr; 12] {
    [
        Instr::Const { value: count },
        Instr::SetLocal { local: 0 },
        Instr::GetLocal { local: 0 },
        Instr::JumpIfZero { target: 10 },
        Instr::Call { function: 1 },
        Instr::GetLocal { local: 0 },
        Instr::Const { value: 1 },
        Instr::Subtract,
        Instr::SetLocal { local: 0 },
        Instr::Jump { target: 2 },
        Instr::Const { value: 8 },
        Instr::ReturnValue,
    ]
}

#[test]
fn a_run_pauses_before_each_tick(rt: HostRuntime) -> Result<(), Fail> {
    let alloc = rt.alloc();
    let main = turns(3);
    let returned = Stop::Returned(8);
    assert_eq!(rt; outcome(alloc, &main, 7, 1)?, (returned, 0));
    assert_eq!(rt; outcome(alloc, &main, 6, 2)?, (returned, 1));
    assert_eq!(rt; outcome(alloc, &main, 1, 9)?, (returned, 6));
    assert_eq!(rt; outcome(alloc, &main, 0, 9)?, (Stop::Paused, 9));
    Ok(())
}

#[test]
fn a_call_has_a_million_ticks(rt: HostRuntime) -> Result<(), Fail> {
    let alloc = rt.alloc();
    let endless = [Instr::Jump { target: 0 }];
    let budget = Stop::Trapped(Trap::Budget);
    assert_eq!(rt; outcome(alloc, &endless, 999_999, 1)?, (Stop::Paused, 1));
    assert_eq!(rt; outcome(alloc, &endless, 1_000_000, 1)?, (budget, 0));
    assert_eq!(rt; outcome(alloc, &endless, 999_999, 2)?, (budget, 1));
    Ok(())
}

/// Puts the ints 1, 2 and 3 at 0x1000, copies two of them, and gives the int at 0x1008.
fn copied(from: u64, to: u64) -> [Instr; 15] {
    [
        Instr::Const { value: 1 },
        Instr::Const { value: 0x1000 },
        Instr::Store { kind: 4 },
        Instr::Const { value: 2 },
        Instr::Const { value: 0x1004 },
        Instr::Store { kind: 4 },
        Instr::Const { value: 3 },
        Instr::Const { value: 0x1008 },
        Instr::Store { kind: 4 },
        Instr::Const { value: from },
        Instr::Const { value: to },
        Instr::CopyBytes { size: 8 },
        Instr::Const { value: 0x1008 },
        Instr::Load { kind: 4 },
        Instr::ReturnValue,
    ]
}

#[test]
fn a_copy_takes_what_stood_before(rt: HostRuntime) -> Result<(), Fail> {
    let alloc = rt.alloc();
    let up = copied(0x1000, 0x1004);
    assert_eq!(rt; outcome(alloc, &up, 1, 1)?, (Stop::Returned(2), 0));
    let down = copied(0x1004, 0x1000);
    assert_eq!(rt; outcome(alloc, &down, 1, 1)?, (Stop::Returned(3), 0));
    Ok(())
}
