// Encoding and decoding with ample memory, on instructions whose bytes are written out.
use bm_isa::{Instr, IsaError, decode, encode};
use std::test::Fail;

/// Each instruction with its bytes: a number, and then the operands, the lowest byte first.
const TABLE: [(Instr, &[u8]); 47] = [
    (
        Instr::Const {
            value: 0x102030405060708,
        },
        &[1, 8, 7, 6, 5, 4, 3, 2, 1],
    ),
    (Instr::GetLocal { local: 0x1020304 }, &[2, 4, 3, 2, 1]),
    (Instr::SetLocal { local: 0x1020304 }, &[3, 4, 3, 2, 1]),
    (Instr::Pop, &[4]),
    (Instr::Duplicate, &[5]),
    (Instr::Add, &[6]),
    (Instr::Subtract, &[7]),
    (Instr::Multiply, &[8]),
    (Instr::DivideSigned, &[9]),
    (Instr::DivideUnsigned, &[10]),
    (Instr::RemainderSigned, &[11]),
    (Instr::RemainderUnsigned, &[12]),
    (Instr::And, &[13]),
    (Instr::Or, &[14]),
    (Instr::Xor, &[15]),
    (Instr::ShiftLeft { width: 0x1020304 }, &[16, 4, 3, 2, 1]),
    (
        Instr::ShiftRightSigned { width: 0x1020304 },
        &[17, 4, 3, 2, 1],
    ),
    (
        Instr::ShiftRightUnsigned { width: 0x1020304 },
        &[18, 4, 3, 2, 1],
    ),
    (
        Instr::Normalize {
            int_type: 0x1020304,
        },
        &[19, 4, 3, 2, 1],
    ),
    (Instr::Equal, &[20]),
    (Instr::LessSigned, &[21]),
    (Instr::LessUnsigned, &[22]),
    (Instr::Not, &[23]),
    (Instr::Jump { target: 0x1020304 }, &[24, 4, 3, 2, 1]),
    (Instr::JumpIfZero { target: 0x1020304 }, &[25, 4, 3, 2, 1]),
    (Instr::AddPointer { size: 0x1020304 }, &[26, 4, 3, 2, 1]),
    (
        Instr::SubtractPointer { size: 0x1020304 },
        &[27, 4, 3, 2, 1],
    ),
    (
        Instr::PointerDifference { size: 0x1020304 },
        &[28, 4, 3, 2, 1],
    ),
    (Instr::PointerLess, &[29]),
    (
        Instr::CheckPointer {
            type_number: 0x1020304,
        },
        &[30, 4, 3, 2, 1],
    ),
    (Instr::Field { offset: 0x1020304 }, &[31, 4, 3, 2, 1]),
    (
        Instr::Index {
            count: 0x11121314,
            size: 0x21222324,
        },
        &[32, 20, 19, 18, 17, 36, 35, 34, 33],
    ),
    (
        Instr::IndexEnd {
            count: 0x11121314,
            size: 0x21222324,
        },
        &[33, 20, 19, 18, 17, 36, 35, 34, 33],
    ),
    (Instr::Load { kind: 0x1020304 }, &[34, 4, 3, 2, 1]),
    (Instr::Store { kind: 0x1020304 }, &[35, 4, 3, 2, 1]),
    (Instr::CopyBytes { size: 0x1020304 }, &[36, 4, 3, 2, 1]),
    (Instr::ReadUnion { member: 0x1020304 }, &[37, 4, 3, 2, 1]),
    (
        Instr::WriteUnion {
            member: 0x1,
            offset: 0x80000000,
            size: 0xfffffffe,
        },
        &[38, 1, 0, 0, 0, 0, 0, 0, 128, 254, 255, 255, 255],
    ),
    (
        Instr::Call {
            function: 0x1020304,
        },
        &[39, 4, 3, 2, 1],
    ),
    (
        Instr::CallIndirect {
            arguments: 0x1020304,
        },
        &[40, 4, 3, 2, 1],
    ),
    (Instr::Return, &[41]),
    (Instr::ReturnValue, &[42]),
    (Instr::Swap, &[43]),
    (Instr::Allocate { site: 0x1020304 }, &[44, 4, 3, 2, 1]),
    (Instr::Free, &[45]),
    (Instr::SendMessage, &[46]),
    (Instr::Panic, &[47]),
];

#[test]
fn encodes_and_decodes_each(rt: HostRuntime) -> Result<(), Fail> {
    for (instr, bytes) in TABLE {
        let encoded = encode(rt.alloc(), &[instr])?;
        assert_eq!(rt; encoded.as_slice(), bytes);
        let decoded = decode(rt.alloc(), bytes)?;
        assert_eq!(rt; decoded.as_slice(), [instr].as_slice());
        for size in 1..bytes.len() {
            assert_eq!(rt;
                decode(rt.alloc(), &bytes[..size]).err(),
                Some(IsaError::Bad { at: 0 })
            );
        }
    }
    Ok(())
}

#[test]
fn finds_the_first_bad_instruction(rt: HostRuntime) -> Result<(), Fail> {
    assert_eq!(rt;
        decode(rt.alloc(), &[4])?.as_slice(),
        [Instr::Pop].as_slice()
    );
    assert_eq!(rt;
        decode(rt.alloc(), &[4, 1, 0]).err(),
        Some(IsaError::Bad { at: 1 })
    );
    assert_eq!(rt;
        decode(rt.alloc(), &[0]).err(),
        Some(IsaError::Bad { at: 0 })
    );
    assert_eq!(rt;
        decode(rt.alloc(), &[4, 5, 48, 0, 0, 0, 0]).err(),
        Some(IsaError::Bad { at: 2 })
    );
    assert_eq!(rt;
        encode(rt.alloc(), &[Instr::Pop])?.as_slice(),
        [4].as_slice()
    );
    Ok(())
}
