// From bytes to instructions.

ghost use Rattle.std.specs.Prelude.{◌≡◌, ℕ, ◌<◌, ◌^◌, List, ◌++◌, length, All, Ok, Err, IfNone, IfSome, IfOk, MatchOption, MatchResult};
ghost use Rattle.lu_spec.specs.LittleEndian.{little_endian};
ghost use Rattle.bm_isa.specs.Encoding.{code_bytes, instruction_bytes, FitsMachine, BeginsWithNone, IsFirstBad};
ghost use Rattle.bm_isa.specs.Reading.{IsWord, HasNumbers, NoneReads, IsRead};
ghost use Rattle.bm_isa.specs.declared.instr.Instr.{Instr};

use crate::error::IsaError;
use crate::instr::Instr;
use crate::table::{with_one, with_three, with_two, with_word, without_operands};
use std::alloc::Global;

/// The instructions that `encode` gives these bytes.
pub fn decode(alloc: Global, bytes: &[u8]) -> Result<Vec<Instr>, IsaError>
    ensures encoded { IfOk result (λ code. code_bytes code.items ≡ bytes.now) }

    // The bytes of any instructions are decoded as those.
    ensures decoded { (code : List Instr) → All FitsMachine code → code_bytes code ≡ bytes.now
        → MatchResult result (λ found. found.items ≡ code) (λ e. e ≡ IsaError.Memory) }

    ensures bad { (at : ℕ) → result ≡ Err (IsaError.Bad at) → IsFirstBad bytes.now at }
{
    let mut code = Vec::new(alloc);
    let mut rest = bytes;
    while !rest.is_empty() {
        let Some((instr, behind)) = split_instruction(rest) else {
            return Err(IsaError::Bad {
                at: bytes.len() - rest.len(),
            });
        };
        code.push(instr)?;
        rest = behind;
    }
    Ok(code)
}

/// The instruction at the front, and the bytes behind it.
fn split_instruction(bytes: &[u8]) -> Option<(Instr, &[u8])>
    ensures none { IfNone result (BeginsWithNone bytes.now) }
    ensures front { IfSome result (λ r. bytes.now ≡ instruction_bytes r.0 ++ r.1.now) }
    ensures fits { IfSome result (λ r. FitsMachine r.0) }
{
    let (number, rest) = bytes.split_first()?;
    if let Some(instr) = without_operands(*number) {
        return Some((instr, rest));
    }
    if let Some((instr, rest)) = split_word_operand(*number, rest) {
        return Some((instr, rest));
    }
    split_operands(*number, rest)
}

/// The instruction with that number, whose operand is the word at the front, and the bytes behind it.
fn split_word_operand(number: u8, bytes: &[u8]) -> Option<(Instr, &[u8])>
    ensures { MatchOption result (NoneReads IsWord number bytes.now) (λ r. IsRead number bytes.now r.0 r.1.now) }
{
    let (word, rest) = split_word(bytes)?;
    Some((with_word(number, word)?, rest))
}

/// The instruction with that number, whose one to three operands are at the front, and the bytes behind it.
fn split_operands(number: u8, bytes: &[u8]) -> Option<(Instr, &[u8])>
    ensures { MatchOption result (NoneReads HasNumbers number bytes.now) (λ r. IsRead number bytes.now r.0 r.1.now) }
{
    let (a, rest) = split_number(bytes)?;
    if let Some(instr) = with_one(number, a) {
        return Some((instr, rest));
    }
    let (b, rest) = split_number(rest)?;
    if let Some(instr) = with_two(number, a, b) {
        return Some((instr, rest));
    }
    let (c, rest) = split_number(rest)?;
    Some((with_three(number, a, b, c)?, rest))
}

/// The number of four bytes at the front, and the bytes behind it.
fn split_number(bytes: &[u8]) -> Option<(u32, &[u8])>
    ensures { MatchOption result (length bytes.now < 4) (λ r. (bytes.now ≡ little_endian 4 r.0 ++ r.1.now) × (r.0 < 2 ^ 32)) }
{
    let (front, rest) = bytes.split_first_chunk::<4>()?;
    Some((u32::from_le_bytes(*front), rest))
}

/// The word of eight bytes at the front, and the bytes behind it.
fn split_word(bytes: &[u8]) -> Option<(u64, &[u8])>
    ensures { MatchOption result (length bytes.now < 8) (λ r. (bytes.now ≡ little_endian 8 r.0 ++ r.1.now) × (r.0 < 2 ^ 64)) }
{
    let (front, rest) = bytes.split_first_chunk::<8>()?;
    Some((u64::from_le_bytes(*front), rest))
}
