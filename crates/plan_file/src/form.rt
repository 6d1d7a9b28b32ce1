// The forms of names, and of the values of keys.
ghost use Rattle.std.specs.Prelude.{◌≡◌, ◌≤◌, Some, None, length, option_copied, if◌then◌else◌};
ghost use Rattle.std.specs.Char.{is_ascii_digit};
ghost use Rattle.std.specs.List.{list_all};
ghost use Rattle.plan_file.specs.Forms as form;
ghost use Rattle.toml.specs.View.{view};

use crate::{Dangling, Pointers};
use toml::Value;

// The form of a text.
#[derive(Clone, Copy, Debug, PartialEq, Eq)]
pub enum TextForm {
    // A letter or `_`, and then letters, digits and `_`, at most 63 bytes in all.
    Name,
    // 1..255 bytes of `A-Z a-z 0-9 . _ - /`.
    FileName,
    // At most 4,096 bytes.
    Filter,
}

impl TextForm {
    ghost use Rattle.plan_file.specs.TextForms.{fits_form};

    pub fn fits(self, text: &[u8]) -> bool
        ensures { result ≡ fits_form self text.now }
    {
        match self {
            TextForm::Name => is_name(text),
            TextForm::FileName => is_file_name(text),
            TextForm::Filter => text.len() <= 4096,
        }
    }
}

fn is_file_name(text: &[u8]) -> bool
    ensures { result ≡ form.is_file_name text.now }
{
    1 <= text.len() && text.len() <= 255 && are_file_bytes(text)
}

fn are_file_bytes(text: &[u8]) -> bool
    ensures { result ≡ list_all form.is_file_byte text.now }
{
    text.iter().all(|byte| is_file_byte(*byte))
}

fn is_file_byte(byte: u8) -> bool
    ensures { result ≡ form.is_file_byte byte }
{
    byte.is_ascii_alphanumeric() || byte == b'.' || byte == b'_' || byte == b'-' || byte == b'/'
}

// A letter or `_`, and then letters, digits and `_`, at most 63 bytes in all.
pub fn is_name(text: &[u8]) -> bool
    ensures { result ≡ form.is_name text.now }
{
    match text {
        [] => false,
        [first, rest @ ..] => {
            !first.is_ascii_digit()
                && is_name_byte(*first)
                && rest.len() <= 62
                && are_name_bytes(rest)
        }
    }
}

fn are_name_bytes(text: &[u8]) -> bool
    ensures { result ≡ list_all form.is_name_byte text.now }
{
    text.iter().all(|byte| is_name_byte(*byte))
}

fn is_name_byte(byte: u8) -> bool
    ensures { result ≡ form.is_name_byte byte }
{
    byte.is_ascii_alphanumeric() || byte == b'_'
}

// `TAG.NAME`.
pub fn is_dotted(text: &[u8]) -> bool
    ensures { result ≡ form.is_dotted text.now }
{
    let (tag, name) = split(text, b'.');
    is_name(tag) && is_name(name)
}

// `FUNCTION#NUMBER`.
pub fn is_site(text: &[u8]) -> bool
    ensures { result ≡ form.is_site text.now }
{
    let (function, number) = split(text, b'#');
    is_name(function) && is_digits(number)
}

// What stands before the first such byte and what follows it, or all and nothing.
#[tactic(auto, using(crate::proofs::Splits::splits))]
fn split(text: &[u8], stop: u8) -> (&[u8], &[u8])
    ensures before { result.0.now ≡ form.before_byte stop text.now }
    ensures after { result.1.now ≡ form.after_byte stop text.now }
{
    let (before, rest) = text.split_at(length_before(text, stop));
    if rest.is_empty() {
        (before, rest)
    } else {
        (before, rest.split_at(1).1)
    }
}

fn length_before(text: &[u8], stop: u8) -> usize
    ensures len { result ≡ length (form.before_byte stop text.now) }
    ensures bound { result ≤ length text.now }
{
    let mut len = 0;
    let mut rest = text;
    while let [byte, after @ ..] = rest {
        if *byte == stop {
            return len;
        }
        len += 1;
        rest = after;
    }
    len
}

// One or more decimal digits.
fn is_digits(text: &[u8]) -> bool
    ensures { result ≡ form.is_digits text.now }
{
    1 <= text.len() && are_digits(text)
}

fn are_digits(text: &[u8]) -> bool
    ensures { result ≡ list_all is_ascii_digit text.now }
{
    text.iter().all(|byte| byte.is_ascii_digit())
}

// A number between two others.
pub fn number_between(value: &Value, low: u32, high: u32) -> Option<u32>
    ensures { result ≡ form.number_between low high (view value.now) }
{
    number_within(value.as_integer()?, low, high)
}

fn number_within(number: i64, low: u32, high: u32) -> Option<u32>
    ensures { result ≡ form.number_within low high number }
{
    if number < 0 || number < i64::from(low) || i64::from(high) < number {
        return None;
    }
    Some(number as u32)
}

pub fn int(value: &Value) -> Option<i32>
    ensures { result ≡ form.int_of (view value.now) }
{
    let number = value.as_integer()?;
    if fits_int(number) {
        Some(number as i32)
    } else {
        None
    }
}

fn fits_int(number: i64) -> bool
    ensures { result ≡ form.fits_int number }
{
    -2_147_483_648 <= number && number <= 2_147_483_647
}

pub fn dangling(value: &Value) -> Option<Dangling>
    ensures { result ≡ form.dangling_of (view value.now) }
{
    match value.as_str() {
        Some(text) => dangling_word(text),
        None => None,
    }
}

fn dangling_word(text: &str) -> Option<Dangling>
    ensures { result ≡ form.dangling_word text.now }
{
    if text == "refuse" {
        Some(Dangling::Refuse)
    } else if text == "null" {
        Some(Dangling::Null)
    } else {
        None
    }
}

pub fn pointers(value: &Value) -> Option<Pointers>
    ensures { result ≡ form.pointers_of (view value.now) }
{
    match value.as_str() {
        Some(text) => pointers_word(text),
        None => None,
    }
}

fn pointers_word(text: &str) -> Option<Pointers>
    ensures { result ≡ form.pointers_word text.now }
{
    if text == "narrow" {
        Some(Pointers::Narrow)
    } else if text == "wide" {
        Some(Pointers::Wide)
    } else {
        None
    }
}
