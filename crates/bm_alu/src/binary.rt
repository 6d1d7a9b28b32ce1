// Operations on two words.

ghost use Rattle.std.specs.Prelude.{◌≡◌, ◌+◌, ◌*◌, ◌<◌, ◌^◌, Bool, ℕ, MatchResult};
ghost use Rattle.std.specs.Int.{int_shr};
ghost use Rattle.bm_alu.specs.Words.{combined, flag, word, signed, of_signed, if_in_range, within_width};
ghost use Rattle.bm_alu.specs.declared.binary.Binary.TheVariants as B;

use lu_base::Trap;

/// An operation on two words, the lower one first.
#[derive(Clone, Copy, Debug, PartialEq, Eq)]
pub enum Binary {
    Add,
    Subtract,
    Multiply,
    DivideSigned,
    DivideUnsigned,
    RemainderSigned,
    RemainderUnsigned,
    And,
    Or,
    Xor,
    /// Left by fewer bits than this width, which is 32 or 64.
    ShiftLeft(u32),
    ShiftRightSigned(u32),
    ShiftRightUnsigned(u32),
    Equal,
    LessSigned,
    LessUnsigned,
    /// An address and an index below a count of elements of some bytes.
    Index(u32, u32),
    /// The same, where the index may also be the count.
    IndexEnd(u32, u32),
}

/// What the operation gives. Traps: `DivZero` for a zero divisor, `BadShift` for a count of the width or more,
/// `BadIndex` for an index out of range, `BadCode` for a width that is neither 32 nor 64.
pub fn combine(operation: Binary, a: u64, b: u64) -> Result<u64, Trap>
    ensures { result ≡ combined operation a b }
{
    match operation {
        Binary::Add => Ok(a.wrapping_add(b)),
        Binary::Subtract => Ok(a.wrapping_sub(b)),
        Binary::Multiply => Ok(a.wrapping_mul(b)),
        Binary::DivideSigned => divide_signed(a, b),
        Binary::DivideUnsigned => divide_unsigned(a, b),
        Binary::RemainderSigned => remainder_signed(a, b),
        Binary::RemainderUnsigned => remainder_unsigned(a, b),
        Binary::And => Ok(a & b),
        Binary::Or => Ok(a | b),
        Binary::Xor => Ok(a ^ b),
        Binary::ShiftLeft(width) => Ok(shift_left(a, shift_count(width, b)?)),
        Binary::ShiftRightSigned(width) => Ok(shift_right_signed(a, shift_count(width, b)?)),
        Binary::ShiftRightUnsigned(width) => Ok(a >> shift_count(width, b)?),
        Binary::Equal => Ok(word_of(a == b)),
        Binary::LessSigned => Ok(word_of(a.cast_signed() < b.cast_signed())),
        Binary::LessUnsigned => Ok(word_of(a < b)),
        Binary::Index(count, size) => element(a, b, size, b < count as u64),
        Binary::IndexEnd(count, size) => element(a, b, size, b <= count as u64),
    }
}

/// 1 for true.
pub(crate) fn word_of(holds: bool) -> u64
    ensures { result ≡ flag holds }
{
    if holds { 1 } else { 0 }
}

fn divide_signed(a: u64, b: u64) -> Result<u64, Trap>
    ensures { result ≡ combined B.DivideSigned a b }
{
    if b == 0 {
        return Err(Trap::DivZero);
    }
    Ok(
        a.cast_signed()
            .wrapping_div(b.cast_signed())
            .cast_unsigned(),
    )
}

fn divide_unsigned(a: u64, b: u64) -> Result<u64, Trap>
    ensures { result ≡ combined B.DivideUnsigned a b }
{
    if b == 0 {
        return Err(Trap::DivZero);
    }
    Ok(a / b)
}

fn remainder_signed(a: u64, b: u64) -> Result<u64, Trap>
    ensures { result ≡ combined B.RemainderSigned a b }
{
    if b == 0 {
        return Err(Trap::DivZero);
    }
    Ok(
        a.cast_signed()
            .wrapping_rem(b.cast_signed())
            .cast_unsigned(),
    )
}

fn remainder_unsigned(a: u64, b: u64) -> Result<u64, Trap>
    ensures { result ≡ combined B.RemainderUnsigned a b }
{
    if b == 0 {
        return Err(Trap::DivZero);
    }
    Ok(a % b)
}

/// The count of a shift, which is below the width.
fn shift_count(width: u32, count: u64) -> Result<u32, Trap>
    ensures within { (c : ℕ) → MatchResult result (λ n. within_width width count c ≡ Ok c) (λ t. within_width width count c ≡ Err t) }
    ensures count { MatchResult result (λ n. (n ≡ count) × (n < 64)) (λ _. Unit {0}) }
{
    if width != 32 && width != 64 {
        return Err(Trap::BadCode);
    }
    if count < width as u64 {
        Ok(count as u32)
    } else {
        Err(Trap::BadShift)
    }
}

fn shift_left(a: u64, count: u32) -> u64
    requires { count < 64 }
    ensures { result ≡ word (a * 2 ^ count) }
{
    a << count
}

fn shift_right_signed(a: u64, count: u32) -> u64
    requires { count < 64 }
    ensures { result ≡ of_signed (int_shr (signed a) count) }
{
    (a.cast_signed() >> count).cast_unsigned()
}

/// The address of an element, where the index is in range.
fn element(address: u64, index: u64, size: u32, is_in_range: bool) -> Result<u64, Trap>
    ensures { result ≡ if_in_range is_in_range (word (address + index * size)) }
{
    if is_in_range {
        Ok(address.wrapping_add(index.wrapping_mul(size as u64)))
    } else {
        Err(Trap::BadIndex)
    }
}
