// The value of a key in a table, or the refusal of that key.
ghost use Rattle.std.specs.Prelude.{◌≡◌, ◌≤◌, codes, Some, None, Ok, Err, map, length, IfOk, option_map, option_copied, MatchResult, true};
ghost use Rattle.std.specs.List.{list_any};
ghost use Rattle.std.specs.Str.{bytes_eq};
ghost use Rattle.toml.specs.Data.{get_member};
ghost use Rattle.toml.specs.View.{view, table_view, items_view};
ghost use Rattle.plan_file.specs.Forms as forms;
ghost use Rattle.plan_file.specs.TextForms.{fits_form};
ghost use Rattle.plan_file.specs.Lookup as lookup;

use crate::form::{TextForm, number_between, pointers};
use crate::{Key, LimitedList, PlanError, Pointers};
use lu_base::Name;
use std::alloc::Global;
use toml::{Table, Value};

pub fn find<'t>(table: &'t Table, word: &str) -> Option<&'t Value>
    ensures { option_map (λ v. view v.now) result ≡ get_member word.now (table_view table.now) }
{
    table.get(word)
}

// The value, or the refusal of the key.
pub fn or_field<T: Drop>(name: Key, value: Option<T>) -> Result<T, PlanError>
    ensures { result ≡ lookup.or_field name value }
{
    match value {
        Some(value) => Ok(value),
        None => Err(PlanError::Field { name }),
    }
}

// A number that may be left out.
pub fn number(
    table: &Table,
    word: &str,
    name: Key,
    low: u32,
    high: u32,
) -> Result<Option<u32>, PlanError>
    ensures { result ≡ lookup.optional (table_view table.now) word.now name (forms.number_between low high) }
{
    match find(table, word) {
        None => Ok(None),
        Some(value) => match number_between(value, low, high) {
            None => Err(PlanError::Field { name }),
            Some(number) => Ok(Some(number)),
        },
    }
}

// A number that is needed.
pub fn needed_number(
    table: &Table,
    word: &str,
    name: Key,
    low: u32,
    high: u32,
) -> Result<u32, PlanError>
    ensures { result ≡ lookup.needed (table_view table.now) word.now name (forms.number_between low high) }
{
    or_field(name, number(table, word, name, low, high)?)
}

// A number with a default.
pub fn number_or(
    table: &Table,
    word: &str,
    name: Key,
    low: u32,
    high: u32,
    default: u32,
) -> Result<u32, PlanError>
    ensures { result ≡ lookup.defaulted (table_view table.now) word.now name (forms.number_between low high) default }
{
    Ok(number(table, word, name, low, high)?.unwrap_or(default))
}

// The size of a program's pointers, narrow where it is left out.
pub fn pointers_or_narrow(table: &Table, name: Key) -> Result<Pointers, PlanError>
    ensures { result ≡ lookup.defaulted (table_view table.now) (codes "pointers") name forms.pointers_of Pointers.Narrow }
{
    match find(table, "pointers") {
        None => Ok(Pointers::Narrow),
        Some(value) => match pointers(value) {
            Some(pointers) => Ok(pointers),
            None => Err(PlanError::Field { name }),
        },
    }
}

// A text of some form that may be left out.
pub fn text(
    alloc: Global,
    table: &Table,
    word: &str,
    name: Key,
    form: TextForm,
) -> Result<Option<Name>, PlanError>
    ensures { lookup.Reads (lookup.optional (table_view table.now) word.now name (forms.text_where (fits_form form))) result }
{
    match find(table, word) {
        None => Ok(None),
        Some(value) => match text_in(value, form) {
            None => Err(PlanError::Field { name }),
            Some(text) => Ok(Some(copied(alloc, text)?)),
        },
    }
}

fn text_in(value: &Value, form: TextForm) -> Option<&str>
    ensures { option_copied result ≡ forms.text_where (fits_form form) (view value.now) }
{
    match value.as_str() {
        Some(text) => {
            if form.fits(text.as_bytes()) {
                Some(text)
            } else {
                None
            }
        }
        None => None,
    }
}

pub fn copied(alloc: Global, text: &str) -> Result<Name, PlanError>
    ensures { MatchResult result (λ name. name ≡ text.now) (λ e. e ≡ PlanError.Memory) }
{
    Ok(Name::new(String::from_str(alloc, text)?))
}

// A text of some form that is needed.
pub fn needed_text(
    alloc: Global,
    table: &Table,
    word: &str,
    name: Key,
    form: TextForm,
) -> Result<Name, PlanError>
    ensures { lookup.Reads (lookup.needed (table_view table.now) word.now name (forms.text_where (fits_form form))) result }
{
    match text(alloc, table, word, name, form)? {
        Some(text) => Ok(text),
        None => Err(PlanError::Field { name }),
    }
}

// The items of a list of tables, of which there are so many.
#[tactic(auto, using(crate::proofs::Items::items))]
pub fn table_items(
    value: &Value,
    name: Key,
    limited: LimitedList,
    low: usize,
    high: usize,
) -> Result<&[Value], PlanError>
    ensures answer { MatchResult result
        (λ items. lookup.table_list name limited low high (view value.now) ≡ Ok (items_view items.now))
        (λ e. lookup.table_list name limited low high (view value.now) ≡ Err e) }
    ensures count { IfOk result (λ items. (low ≤ length items.now) × (length items.now ≤ high)) }
{
    match value.as_array() {
        Some(items) => {
            if !are_tables(items) {
                Err(PlanError::Field { name })
            } else if low <= items.len() && items.len() <= high {
                Ok(items.as_slice())
            } else {
                Err(PlanError::Limit { name: limited })
            }
        }
        None => Err(PlanError::Field { name }),
    }
}

#[tactic(auto, using(crate::proofs::Items::items))]
fn are_tables(items: &[Value]) -> bool
    ensures { result ≡ lookup.are_tables (items_view items.now) }
{
    let mut rest = items;
    while let [item, after @ ..] = rest {
        if !item.is_table() {
            return false;
        }
        rest = after;
    }
    true
}

// Whether each key of the table is one of those.
pub fn has_only(table: &Table, words: &[&str]) -> bool
    ensures { result ≡ lookup.has_only (map (λ word. word.now) words.now) (table_view table.now) }
{
    for (word, _) in table.iter() {
        if !is_among(words, word.as_str()) {
            return false;
        }
    }
    true
}

fn is_among(words: &[&str], text: &str) -> bool
    ensures { result ≡ list_any (λ word. bytes_eq text.now word) (map (λ word. word.now) words.now) }
{
    let mut rest = words;
    while let [word, after @ ..] = rest {
        if text == *word {
            return true;
        }
        rest = after;
    }
    false
}
