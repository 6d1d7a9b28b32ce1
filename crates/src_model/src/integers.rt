// Arithmetic on integers of a type: two's complement, and results wrap.

ghost use Rattle.std.specs.Prelude.{◌≡◌, ◌<◌, ◌^◌, ◌+ℤ◌, ◌-ℤ◌, ◌*ℤ◌, pos, negsuc, neg_ℤ, bit_and, bit_or, bit_xor};
ghost use Rattle.src_meaning.specs.Integers.{bits_of, residue, from_bits, wrapped, flag, quotient, remainder, on_bits, shifted_left, shifted_right};

use c_types::IntKind;
use lu_base::Trap;

/// The bits of the type.
fn bits_of(kind: IntKind) -> u32
    ensures value { result ≡ bits_of kind }
    ensures bound { result < 65 }
{
    match kind {
        IntKind::Char | IntKind::UChar => 8,
        IntKind::Short | IntKind::UShort => 16,
        IntKind::Int | IntKind::UInt => 32,
        IntKind::LongLong | IntKind::ULongLong => 64,
    }
}

/// One more than the greatest unsigned number of these bits.
fn modulus(kind: IntKind) -> i128
    ensures { result ≡ pos (2 ^ bits_of kind) }
{
    match kind {
        IntKind::Char | IntKind::UChar => 0x100,
        IntKind::Short | IntKind::UShort => 0x1_0000,
        IntKind::Int | IntKind::UInt => 0x1_0000_0000,
        IntKind::LongLong | IntKind::ULongLong => 0x1_0000_0000_0000_0000,
    }
}

/// The number's bits in the type.
fn residue(kind: IntKind, z: i128) -> u64
    ensures value { result ≡ residue kind z }
    ensures bound { result < 2 ^ bits_of kind }
{
    z.rem_euclid(modulus(kind)) as u64
}

/// The number of the type that has these bits.
fn from_bits(kind: IntKind, n: u64) -> i128
    requires { n < 2 ^ bits_of kind }
    ensures { result ≡ from_bits kind n }
{
    match kind {
        IntKind::Char => (n as u8).cast_signed() as i128,
        IntKind::Short => (n as u16).cast_signed() as i128,
        IntKind::Int => (n as u32).cast_signed() as i128,
        IntKind::LongLong => n.cast_signed() as i128,
        IntKind::UChar | IntKind::UShort | IntKind::UInt | IntKind::ULongLong => n as i128,
    }
}

/// Conversion to the type.
pub fn wrap(kind: IntKind, z: i128) -> i128
    ensures { result ≡ wrapped kind z }
{
    from_bits(kind, residue(kind, z))
}

pub fn add(kind: IntKind, a: i128, b: i128) -> i128
    ensures { result ≡ wrapped kind (a +ℤ b) }
{
    wrap(kind, a.wrapping_add(b))
}

pub fn subtract(kind: IntKind, a: i128, b: i128) -> i128
    ensures { result ≡ wrapped kind (a -ℤ b) }
{
    wrap(kind, a.wrapping_sub(b))
}

pub fn multiply(kind: IntKind, a: i128, b: i128) -> i128
    ensures { result ≡ wrapped kind (a *ℤ b) }
{
    wrap(kind, a.wrapping_mul(b))
}

/// `-z`
pub fn negate(kind: IntKind, z: i128) -> i128
    ensures { result ≡ wrapped kind (neg_ℤ z) }
{
    wrap(kind, z.wrapping_neg())
}

/// `~z`
pub fn complement(kind: IntKind, z: i128) -> i128
    ensures { result ≡ wrapped kind (negsuc 0 -ℤ z) }
{
    wrap(kind, (-1i128).wrapping_sub(z))
}

/// `a / b`, truncated toward zero. Trap: `DivZero` where `b` is zero.
pub fn divide(kind: IntKind, a: i128, b: i128) -> Result<i128, Trap>
    ensures { result ≡ quotient kind a b }
{
    if b == 0 {
        return Err(Trap::DivZero);
    }
    Ok(wrap(kind, a.wrapping_div(b)))
}

/// `a % b`, with the sign of `a`. Trap: `DivZero` where `b` is zero.
pub fn remainder(kind: IntKind, a: i128, b: i128) -> Result<i128, Trap>
    ensures { result ≡ remainder kind a b }
{
    if b == 0 {
        return Err(Trap::DivZero);
    }
    Ok(wrap(kind, a.wrapping_rem(b)))
}

pub fn and_bits(kind: IntKind, a: i128, b: i128) -> i128
    ensures { result ≡ on_bits bit_and kind a b }
{
    from_bits(kind, residue(kind, a) & residue(kind, b))
}

pub fn or_bits(kind: IntKind, a: i128, b: i128) -> i128
    ensures { result ≡ on_bits bit_or kind a b }
{
    from_bits(kind, residue(kind, a) | residue(kind, b))
}

pub fn xor_bits(kind: IntKind, a: i128, b: i128) -> i128
    ensures { result ≡ on_bits bit_xor kind a b }
{
    from_bits(kind, residue(kind, a) ^ residue(kind, b))
}

fn power_of_two(exponent: u32) -> i128
    requires { exponent < 64 }
    ensures { result ≡ pos (2 ^ exponent) }
{
    (1u64 << exponent) as i128
}

/// `a << b`. Trap: `BadShift` where `b` isn't from 0 to the type's bits less 1.
pub fn shift_left(kind: IntKind, a: i128, b: i128) -> Result<i128, Trap>
    ensures { result ≡ shifted_left kind a b }
{
    if 0 <= b && b < bits_of(kind) as i128 {
        Ok(multiply(kind, a, power_of_two(b as u32)))
    } else {
        Err(Trap::BadShift)
    }
}

/// `a >> b`, rounded down. Trap: `BadShift` where `b` isn't from 0 to the type's bits less 1.
pub fn shift_right(kind: IntKind, a: i128, b: i128) -> Result<i128, Trap>
    ensures { result ≡ shifted_right kind a b }
{
    if 0 <= b && b < bits_of(kind) as i128 {
        Ok(a >> b as u32)
    } else {
        Err(Trap::BadShift)
    }
}

/// 1 for true.
pub fn flag(holds: bool) -> i128
    ensures { result ≡ flag holds }
{
    if holds { 1 } else { 0 }
}
