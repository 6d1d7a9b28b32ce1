// Names of a valid program.

ghost use Rattle.std.specs.Prelude.{◌≡◌, ◌-◌, ◌^◌, ◌&&◌, not, length, nat_lt, nat_eq, bytes_eq};
ghost use Rattle.std.specs.List.{list_all, list_any};
ghost use Rattle.src_meaning.specs.ValidNames as spec;

use lu_base::Name;
use src_meaning::validity::{BUILT_INS, KEYWORDS};
use src_tree::program::{Function, Global};

fn is_letter(b: u8) -> bool
    ensures { result ≡ spec.is_letter b }
{
    b.is_ascii_alphabetic() || b == b'_'
}

fn is_word_byte(b: u8) -> bool
    ensures { result ≡ spec.is_word_byte b }
{
    b.is_ascii_alphanumeric() || b == b'_'
}

fn are_word_bytes(bytes: &[u8]) -> bool
    ensures { result ≡ list_all spec.is_word_byte bytes.now }
{
    bytes.iter().all(|b| is_word_byte(*b))
}

fn is_word(word: &[u8]) -> bool
    ensures { result ≡ spec.is_word word.now }
{
    match word.split_first() {
        None => false,
        Some((b, rest)) => is_letter(*b) && are_word_bytes(rest),
    }
}

fn is_one_of(words: &[&[u8]], word: &[u8]) -> bool
    ensures { result ≡ list_any (λ w. bytes_eq w.now word.now) words.now }
{
    words.iter().any(|known| *known == word)
}

fn is_keyword(word: &[u8]) -> bool
    ensures { result ≡ spec.is_keyword word.now }
{
    is_one_of(&KEYWORDS, word)
}

fn is_identifier(name: &Name) -> bool
    ensures { result ≡ spec.is_identifier name.now }
{
    is_word(name.as_bytes()) && !is_keyword(name.as_bytes())
}

fn has_name(names: &[Name], name: &Name) -> bool
    ensures { result ≡ list_any (bytes_eq name.now) names.now }
{
    names.iter().any(|other| name == other)
}

/// Whether no two of these are equal. It looks at each pair of them.
pub fn are_distinct(names: &[Name]) -> bool
    ensures { result ≡ spec.are_distinct names.now }
{
    let mut rest = names;
    while let [name, others @ ..] = rest {
        if has_name(others, name) {
            return false;
        }
        rest = others;
    }
    true
}

fn are_identifiers(names: &[Name]) -> bool
    ensures { result ≡ list_all spec.is_identifier names.now }
{
    names.iter().all(|name| is_identifier(name))
}

/// Whether these are identifiers, fewer than 4,294,967,295.
pub fn are_few_identifiers(names: &[Name]) -> bool
    ensures { result ≡ (nat_lt (length names.now) (2 ^ 32 - 1) && list_all spec.is_identifier names.now) }
{
    names.len() < u32::MAX as usize && are_identifiers(names)
}

/// Whether there is a name of the number.
pub fn is_name(names: &[Name], number: u32) -> bool
    ensures { result ≡ spec.is_name names.now number }
{
    (number as usize) < names.len()
}

/// Whether the name of the number is this word.
pub fn is_called(names: &[Name], number: u32, word: &[u8]) -> bool
    ensures { result ≡ spec.is_called names.now number word.now }
{
    match names.get(number as usize) {
        None => false,
        Some(name) => word == name.as_bytes(),
    }
}

fn is_called_one_of(names: &[Name], number: u32, words: &[&[u8]]) -> bool
    ensures { result ≡ list_any (λ w. spec.is_called names.now number w.now) words.now }
{
    words.iter().any(|word| is_called(names, number, word))
}

fn is_built_in(names: &[Name], number: u32) -> bool
    ensures { result ≡ spec.is_built_in names.now number }
{
    is_called_one_of(names, number, &BUILT_INS)
}

/// Whether a program may declare the name of the number.
pub fn is_free(names: &[Name], number: u32) -> bool
    ensures { result ≡ spec.is_free names.now number }
{
    is_name(names, number) && !is_built_in(names, number)
}

fn is_global_name(globals: &[Global], name: u32) -> bool
    ensures { result ≡ list_any (λ h. nat_eq name h.name) globals.now }
{
    globals.iter().any(|global| name == global.name)
}

fn is_function_name(functions: &[Function], name: u32) -> bool
    ensures { result ≡ list_any (λ h. nat_eq name h.name) functions.now }
{
    functions.iter().any(|function| name == function.name)
}

fn globals_differ(globals: &[Global]) -> bool
    ensures { result ≡ spec.globals_differ globals.now }
{
    match globals.split_first() {
        None => true,
        Some((global, rest)) => !is_global_name(rest, global.name) && globals_differ(rest),
    }
}

fn functions_differ(functions: &[Function]) -> bool
    ensures { result ≡ spec.functions_differ functions.now }
{
    match functions.split_first() {
        None => true,
        Some((function, rest)) => !is_function_name(rest, function.name) && functions_differ(rest),
    }
}

fn is_no_function(functions: &[Function], global: &Global) -> bool
    ensures { result ≡ spec.is_no_function functions.now global.now }
{
    !is_function_name(functions, global.name)
}

fn are_no_functions(functions: &[Function], globals: &[Global]) -> bool
    ensures { result ≡ list_all (spec.is_no_function functions.now) globals.now }
{
    globals
        .iter()
        .all(|global| is_no_function(functions, global))
}

/// Whether no two of these have one name.
pub fn names_differ(globals: &[Global], functions: &[Function]) -> bool
    ensures { result ≡ spec.names_differ globals.now functions.now }
{
    globals_differ(globals) && functions_differ(functions) && are_no_functions(functions, globals)
}
