// Operations on one word.

ghost use Rattle.std.specs.Prelude.{◌≡◌, ◌<◌, ◌^◌, slice_get};
ghost use Rattle.bm_alu.specs.Words.{int_kinds, extended, transformed};

use crate::binary::word_of;
use c_types::IntKind;
use lu_base::Trap;

/// An operation on one word.
#[derive(Clone, Copy, Debug, PartialEq, Eq)]
pub enum Unary {
    /// Cuts to the integer type with that number, and extends.
    Normalize(u32),
    Not,
    /// Adds so many bytes.
    Field(u32),
}

/// The integer type of a number, from 0 to 7.
pub fn int_kind(number: u32) -> Option<IntKind>
    ensures { result ≡ slice_get int_kinds number }
{
    match number {
        0 => Some(IntKind::Char),
        1 => Some(IntKind::UChar),
        2 => Some(IntKind::Short),
        3 => Some(IntKind::UShort),
        4 => Some(IntKind::Int),
        5 => Some(IntKind::UInt),
        6 => Some(IntKind::LongLong),
        7 => Some(IntKind::ULongLong),
        _ => None,
    }
}

/// The word cut to the type, and extended by its sign or by zeros.
pub fn normalize(kind: IntKind, a: u64) -> u64
    ensures { result ≡ extended kind a }
{
    match kind {
        IntKind::Char => (((a % 256) as u8).cast_signed() as i64).cast_unsigned(),
        IntKind::UChar => a % 256,
        IntKind::Short => (((a % 65_536) as u16).cast_signed() as i64).cast_unsigned(),
        IntKind::UShort => a % 65_536,
        IntKind::Int => (((a % 4_294_967_296) as u32).cast_signed() as i64).cast_unsigned(),
        IntKind::UInt => a % 4_294_967_296,
        IntKind::LongLong | IntKind::ULongLong => a,
    }
}

/// What the operation gives. Trap: `BadCode` where the number names no integer type.
pub fn transform(operation: Unary, a: u64) -> Result<u64, Trap>
    ensures { result ≡ transformed operation a }
{
    match operation {
        Unary::Normalize(number) => match int_kind(number) {
            None => Err(Trap::BadCode),
            Some(kind) => Ok(normalize(kind, a)),
        },
        Unary::Not => Ok(word_of(a == 0)),
        Unary::Field(offset) => Ok(a.wrapping_add(offset as u64)),
    }
}
