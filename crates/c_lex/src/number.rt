//! Numbers.

ghost use Rattle.std.specs.Prelude.{◌≡◌, ◌<◌, ◌≤◌, ◌^◌, ◌⊎◌, ◌==◌, nat_lt, true, false, not, if◌then◌else◌, length, map, drop, IfOk, Some, None, slice_index};
ghost use Rattle.std.specs.Char.{is_ascii_digit, is_ascii_hexdigit};
ghost use Rattle.std.specs.List.{prefix_len, list_all};
ghost use Rattle.c_ast.specs.Lexeme as lexeme;
ghost use Rattle.c_ast.specs.Lexical.{meaning_of, HasBadByte, HasBadNumber};
ghost use Rattle.c_lex.specs.Front.{IsFront};

use crate::piece::{Fault, Piece};
use crate::word::word_length;
use c_ast::token::{Number, NumberKind, Token};

/// Whether numbers of the kind hold the value.
fn holds(kind: NumberKind, value: u64) -> bool
    ensures { result ≡ nat_lt value (lexeme.limit_of kind) }
{
    match kind {
        NumberKind::Int => value <= 0x7fff_ffff,
        NumberKind::UnsignedInt => value <= 0xffff_ffff,
        NumberKind::LongLong => value <= 0x7fff_ffff_ffff_ffff,
        NumberKind::UnsignedLongLong => true,
    }
}

/// The kinds that a suffix allows, the one to be taken first in front; none where it is no suffix.
fn kinds(is_hexadecimal: bool, suffix: &[u8]) -> &'static [NumberKind]
    ensures { result.now ≡ lexeme.kinds_of is_hexadecimal suffix.now }
{
    if suffix == b"".as_slice() {
        if is_hexadecimal {
            return &[
                NumberKind::Int,
                NumberKind::UnsignedInt,
                NumberKind::LongLong,
                NumberKind::UnsignedLongLong,
            ];
        }
        return &[NumberKind::Int, NumberKind::LongLong];
    }
    if suffix == b"u".as_slice() || suffix == b"U".as_slice() {
        return &[NumberKind::UnsignedInt, NumberKind::UnsignedLongLong];
    }
    if suffix == b"ll".as_slice() || suffix == b"LL".as_slice() {
        if is_hexadecimal {
            return &[NumberKind::LongLong, NumberKind::UnsignedLongLong];
        }
        return &[NumberKind::LongLong];
    }
    if suffix == b"ull".as_slice() || suffix == b"ULL".as_slice() {
        return &[NumberKind::UnsignedLongLong];
    }
    &[]
}

fn first_that_holds(value: u64, kinds: &[NumberKind]) -> Option<Number>
    ensures { result ≡ lexeme.first_that_holds value kinds.now }
{
    for kind in kinds {
        if holds(*kind, value) {
            return Some(Number { value, kind: *kind });
        }
    }
    None
}

fn digit(b: u8) -> u8
    requires { Rattle.std.specs.Char.is_ascii_hexdigit b ≡ true }
    ensures value { result ≡ lexeme.digit_of b }
    ensures small { result < 16 }
{
    if b.is_ascii_digit() {
        b - b'0'
    } else if b < b'a' {
        b - 55
    } else {
        b - 87
    }
}

/// The value of digits, if 64 bits hold it.
fn value(base: u64, digits: &[u8]) -> Option<u64>
    requires base { (base ≡ 10) ⊎ (base ≡ 16) }
    requires digits { list_all is_ascii_hexdigit digits.now ≡ true }
    ensures { result ≡ (if nat_lt (lexeme.value_in base digits.now) (2 ^ 64) then Some (lexeme.value_in base digits.now) else None) }
{
    let mut value: u64 = 0;
    for b in digits {
        match value.checked_mul(base) {
            None => return None,
            Some(shifted) => match shifted.checked_add(u64::from(digit(*b))) {
                None => return None,
                Some(sum) => value = sum,
            },
        }
    }
    Some(value)
}

fn is_suffix_letter(b: u8) -> bool
    ensures { result ≡ lexeme.is_suffix_letter b }
{
    b == b'u' || b == b'U' || b == b'l' || b == b'L'
}

fn leads_with_zero(digits: &[u8]) -> bool
    ensures { result ≡ (slice_index digits.now 0 == 48) }
{
    0 < digits.len() && digits[0] == b'0'
}

fn are_digits(bytes: &[u8]) -> bool
    ensures { result ≡ list_all is_ascii_digit bytes.now }
{
    bytes.iter().all(|b| b.is_ascii_digit())
}

fn are_hexadecimal_digits(bytes: &[u8]) -> bool
    ensures { result ≡ list_all is_ascii_hexdigit bytes.now }
{
    bytes.iter().all(|b| b.is_ascii_hexdigit())
}

#[tactic(auto, using(crate::proofs::Classes::decimal_is_hexadecimal))]
fn is_decimal(digits: &[u8]) -> bool
    ensures value { result ≡ lexeme.is_decimal digits.now }
    ensures digits { result ≡ true → list_all is_ascii_hexdigit digits.now ≡ true }
{
    if !are_digits(digits) {
        return false;
    }
    digits == b"0".as_slice() || !leads_with_zero(digits)
}

fn is_hexadecimal(digits: &[u8]) -> bool
    ensures value { result ≡ lexeme.is_hexadecimal digits.now }
    ensures long { result ≡ true → 2 < length digits.now }
    ensures digits { result ≡ true → list_all is_ascii_hexdigit (drop 2 digits.now) ≡ true }
{
    if digits.len() <= 2 || digits[0] != b'0' {
        return false;
    }
    if digits[1] != b'x' && digits[1] != b'X' {
        return false;
    }
    are_hexadecimal_digits(&digits[2..])
}

fn number_with(digits: &[u8], suffix: &[u8]) -> Option<Number>
    ensures { result ≡ lexeme.number_with digits.now suffix.now }
{
    if is_hexadecimal(digits) {
        first_that_holds(value(16, &digits[2..])?, kinds(true, suffix))
    } else if is_decimal(digits) {
        first_that_holds(value(10, digits)?, kinds(false, suffix))
    } else {
        None
    }
}

/// How many bytes of a number stand before its suffix.
fn digits_length(word: &[u8]) -> usize
    ensures value { result ≡ prefix_len (λ b. not (lexeme.is_suffix_letter b)) word.now }
    ensures within { result ≤ length word.now }
{
    word.iter().take_while(|b| !is_suffix_letter(**b)).count()
}

fn number(word: &[u8]) -> Option<Number>
    ensures { result ≡ lexeme.number_of word.now }
{
    let len = digits_length(word);
    number_with(&word[..len], &word[len..])
}

#[tactic(auto, using(crate::proofs::Words::word_facts))]
pub fn number_piece(text: &[u8]) -> Result<Piece, Fault>
    requires first { 0 < length text.now }
    requires digit { is_ascii_digit (slice_index text.now 0) ≡ true }
    ensures piece { IfOk result (λ p. IsFront text.now p.len (meaning_of p.token)) }
    ensures byte { result ≡ Err Fault.BadByte → HasBadByte text.now }
    ensures number { result ≡ Err Fault.BadNumber → HasBadNumber text.now }
{
    let len = word_length(text);
    match number(&text[..len]) {
        Some(number) => Ok(Piece {
            len,
            token: Some(Token::Number(number)),
        }),
        None => Err(Fault::BadNumber),
    }
}
