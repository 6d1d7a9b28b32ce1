// What stands twice in a table, and what has no field.

ghost use Rattle.std.specs.Prelude.{◌≡◌, ℕ, ◌<◌, length, IfOk, IsTrue, IsSomeAnd, slice_get};
ghost use Rattle.std.specs.Option.{option_map};
ghost use Rattle.c_types.specs.Numbering.{are_countable};
ghost use Rattle.c_types.specs.Refusal.{entries, Clashes, HasNameBefore, NamesTwice, HasNameTwice, ClashesBefore, IsDuplicate, HasNoField, IsEmpty};
ghost use Rattle.c_types.specs.Words.{Tells, IsFirst};
ghost use Rattle.c_types.specs.Entries.{entry_of, IsRepeated};

use crate::parts::{FieldDef, Parts, Signature, TagDef, Ty};
use std::alloc::{AllocError, Global};
use std::collections::HashSet;

/// An entry of types, structs, unions and signatures as one list.
#[derive(Clone, Copy)]
pub enum Entry<'a> {
    Type(&'a Ty),
    Tag(&'a TagDef),
    Signature(&'a Signature),
}

/// How many entries there are.
fn entry_count(parts: &Parts) -> u64
    requires { IsTrue (are_countable parts.now) }
    ensures { result ≡ length (entries parts.now) }
{
    let types = parts.types.as_slice().len() as u64;
    let structs = parts.structs.as_slice().len() as u64;
    let unions = parts.unions.as_slice().len() as u64;
    let signatures = parts.signatures.as_slice().len() as u64;
    types + structs + unions + signatures
}

fn entry_at(parts: &Parts, number: u64) -> Option<Entry<'_>>
    ensures { option_map entry_of result ≡ slice_get (entries parts.now) number }
{
    let types = parts.types.as_slice();
    let structs = parts.structs.as_slice();
    let unions = parts.unions.as_slice();
    let signatures = parts.signatures.as_slice();
    let at = number as usize;
    if at < types.len() {
        return Some(Entry::Type(&types[at]));
    }
    let at = at - types.len();
    if at < structs.len() {
        return Some(Entry::Tag(&structs[at]));
    }
    let at = at - structs.len();
    if at < unions.len() {
        return Some(Entry::Tag(&unions[at]));
    }
    let at = at - unions.len();
    if at < signatures.len() {
        return Some(Entry::Signature(&signatures[at]));
    }
    None
}

fn same_type(a: &Ty, b: &Ty) -> bool
    ensures { Tells result (a.now ≡ b.now) }
{
    a == b
}

fn same_signature(a: &Signature, b: &Signature) -> bool
    ensures { Tells result (a.now ≡ b.now) }
{
    a.result == b.result && a.params.as_slice() == b.params.as_slice()
}

fn clashes(a: Entry, b: Entry) -> bool
    ensures { Tells result (Clashes (entry_of a.entry) (entry_of b.entry)) }
{
    match (a, b) {
        (Entry::Type(a), Entry::Type(b)) => same_type(a, b),
        (Entry::Tag(a), Entry::Tag(b)) => a.tag == b.tag,
        (Entry::Signature(a), Entry::Signature(b)) => same_signature(a, b),
        _ => false,
    }
}

/// The entries before this number clash with no entry of this kind.
fn first_rival(parts: &Parts, here: Entry) -> u64
    ensures { (k : ℕ) → k < result →
        IsSomeAnd (slice_get (entries parts.now) k) (λ d. Clashes d (entry_of here.entry)) → ⊥ }
{
    let types = parts.types.as_slice().len() as u64;
    match here {
        Entry::Type(_) => 0,
        Entry::Tag(_) => types,
        Entry::Signature(_) => types,
    }
}

fn clashes_before(parts: &Parts, number: u64, here: Entry) -> bool
    ensures { Tells result (ClashesBefore (entries parts.now) number (entry_of here.entry)) }
{
    for m in first_rival(parts, here)..number {
        if let Some(earlier) = entry_at(parts, m) {
            if clashes(earlier, here) {
                return true;
            }
        }
    }
    false
}

/// Whether the k-th name stands earlier too.
fn name_before(fields: &[FieldDef], k: usize) -> bool
    requires { k < length fields.now }
    ensures { Tells result (HasNameBefore fields.now k) }
{
    for j in 0..k {
        if fields[j].name == fields[k].name {
            return true;
        }
    }
    false
}

fn names_twice(fields: &[FieldDef]) -> bool
    ensures { Tells result (NamesTwice fields.now) }
{
    for k in 0..fields.len() {
        if name_before(fields, k) {
            return true;
        }
    }
    false
}

fn has_name_twice(here: Entry) -> bool
    ensures { Tells result (HasNameTwice (entry_of here.entry)) }
{
    match here {
        Entry::Tag(tag) => names_twice(tag.fields.as_slice()),
        _ => false,
    }
}

fn has_no_field(here: Entry) -> bool
    ensures { Tells result (HasNoField (entry_of here.entry)) }
{
    match here {
        Entry::Tag(tag) => tag.fields.as_slice().is_empty(),
        _ => false,
    }
}

fn is_duplicate(parts: &Parts, number: u64) -> bool
    ensures { Tells result (IsDuplicate parts.now number) }
{
    match entry_at(parts, number) {
        None => false,
        Some(here) => has_name_twice(here) || clashes_before(parts, number, here),
    }
}

fn is_empty(parts: &Parts, number: u64) -> bool
    ensures { Tells result (IsEmpty parts.now number) }
{
    match entry_at(parts, number) {
        None => false,
        Some(here) => has_no_field(here),
    }
}

/// The first type that equals an earlier one.
fn first_repeated(alloc: Global, types: &[Ty]) -> Result<Option<usize>, AllocError>
    ensures { IfOk result (IsFirst (IsRepeated types.now)) }
{
    let mut seen = HashSet::new(alloc);
    for (number, ty) in types.iter().enumerate() {
        if !seen.insert(*ty)? {
            return Ok(Some(number));
        }
    }
    Ok(None)
}

/// The first entry that is a type or signature equal to an earlier one, or a struct or union that
/// has the tag of an earlier one or a field name twice.
pub fn first_duplicate(alloc: Global, parts: &Parts) -> Result<Option<u64>, AllocError>
    requires { IsTrue (are_countable parts.now) }
    ensures { IfOk result (IsFirst (IsDuplicate parts.now)) }
{
    let types = parts.types.as_slice();
    if let Some(number) = first_repeated(alloc, types)? {
        return Ok(Some(number as u64));
    }
    for number in types.len() as u64..entry_count(parts) {
        if is_duplicate(parts, number) {
            return Ok(Some(number));
        }
    }
    Ok(None)
}

/// The first entry that is a struct or union with no field.
pub fn first_empty(parts: &Parts) -> Option<u64>
    requires { IsTrue (are_countable parts.now) }
    ensures { IsFirst (IsEmpty parts.now) result }
{
    for number in 0..entry_count(parts) {
        if is_empty(parts, number) {
            return Some(number);
        }
    }
    None
}
