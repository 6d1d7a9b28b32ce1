// The names of an image: distinct identifiers.

ghost use Rattle.std.specs.Prelude.{◌≡◌, [], true, false, bytes_eq, IfOk};
ghost use Rattle.std.specs.List.{list_all, list_any};
ghost use Rattle.src_meaning.specs.ValidNames as spec;
ghost use Rattle.cg_image_read.specs.Answer.{Gives};
ghost use Rattle.cg_image_read.specs.Fields.{items_at};
ghost use Rattle.cg_image_read.specs.Items.{name_at};
ghost use Rattle.cg_image_read.specs.Reading.{names_at};

use crate::error::ImageError;
use crate::fields::{place, split_number, split_text};
use c_check_scope::names::Names;
use lu_base::{Memory, Name, Sequence};
use src_meaning::validity::KEYWORDS;
use std::alloc::Global;

fn is_letter(b: u8) -> bool
    ensures { result ≡ spec.is_letter b }
{
    b.is_ascii_alphabetic() || b == b'_'
}

fn is_word_byte(b: u8) -> bool
    ensures { result ≡ spec.is_word_byte b }
{
    b.is_ascii_alphanumeric() || b == b'_'
}

fn are_word_bytes(bytes: &[u8]) -> bool
    ensures { result ≡ list_all spec.is_word_byte bytes.now }
{
    bytes.iter().all(|b| is_word_byte(*b))
}

fn is_word(word: &[u8]) -> bool
    ensures { result ≡ spec.is_word word.now }
{
    match word.split_first() {
        None => false,
        Some((b, rest)) => is_letter(*b) && are_word_bytes(rest),
    }
}

fn is_one_of(words: &[&[u8]], word: &[u8]) -> bool
    ensures { result ≡ list_any (λ w. bytes_eq w.now word.now) words.now }
{
    words.iter().any(|known| *known == word)
}

fn is_identifier(word: &[u8]) -> bool
    ensures { result ≡ spec.is_identifier word.now }
{
    is_word(word) && !is_one_of(&KEYWORDS, word)
}

/// The name of an identifier's bytes.
fn name_of(alloc: Global, word: &[u8]) -> Result<Name, Memory>
    requires { spec.is_identifier word.now ≡ true }
    ensures { IfOk result (λ name. name ≡ word.now) }
{
    Name::from_ascii(alloc, word)
}

/// Whether a name is among names.
#[tactic(auto, unfolding(c_check_scope::specs::Names::number_named))]
fn is_among(names: &Names, name: &Name) -> bool
    ensures { result ≡ list_any (bytes_eq name.now) names.now }
{
    names.number_of(name).is_some()
}

/// A name that is none of those before.
#[tactic(auto, unfolding(crate::specs::Items::name_at))]
fn read_name<'a>(
    alloc: Global,
    before: &Names,
    at: usize,
    bytes: &'a [u8],
) -> Result<(Name, &'a [u8]), ImageError>
    ensures read { Gives (λ x. (x.0, x.1.now)) result (name_at before.now at bytes.now) }
    ensures new { IfOk result (λ x. list_any (bytes_eq x.0) before.now ≡ false) }
{
    let (text, rest) = split_text(bytes)?;
    if !is_identifier(text) {
        return Err(ImageError::Table { at });
    }
    let name = name_of(alloc, text)?;
    if is_among(before, &name) {
        return Err(ImageError::Table { at });
    }
    Ok((name, rest))
}

/// So many names.
fn read_counted_names<'a>(
    alloc: Global,
    end: usize,
    count: u32,
    bytes: &'a [u8],
) -> Result<(Sequence<Name>, &'a [u8]), ImageError>
    ensures { Gives (λ x. (x.0, x.1.now)) result (items_at name_at end [] count bytes.now) }
{
    let mut names = Vec::new(alloc);
    let mut seen = Names::new(alloc);
    let mut rest = bytes;
    for _ in 0..count {
        let (name, behind) = read_name(alloc, &seen, place(end, rest), rest)?;
        seen.add(alloc, &name)?;
        names.push(name)?;
        rest = behind;
    }
    Ok((Sequence::from_vec(names), rest))
}

/// The list of names.
#[tactic(auto, unfolding(crate::specs::Reading::names_at))]
pub(crate) fn read_names<'a>(
    alloc: Global,
    end: usize,
    bytes: &'a [u8],
) -> Result<(Sequence<Name>, &'a [u8]), ImageError>
    ensures { Gives (λ x. (x.0, x.1.now)) result (names_at end bytes.now) }
{
    let (count, rest) = split_number(bytes)?;
    read_counted_names(alloc, end, count, rest)
}
