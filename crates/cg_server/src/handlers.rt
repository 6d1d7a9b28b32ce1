// The functions that a server begins with, by name.

ghost use Rattle.std.specs.Prelude.{◌≡◌, position};
ghost use Rattle.src_meaning.specs.Valid as spec;
ghost use Rattle.src_meaning.specs.ValidNames.{is_called};
ghost use Rattle.cg_server.specs.Deliveries.{handler_number};

use cg_program::code::Code;
use lu_base::Name;
use src_tree::program::{Function, Program};

/// Whether the name of the number is this word.
fn is_called(names: &[Name], number: u32, word: &[u8]) -> bool
    ensures { result ≡ is_called names.now number word.now }
{
    match names.get(number as usize) {
        None => false,
        Some(name) => word == name.as_bytes(),
    }
}

fn is_handler(p: &Program, word: &[u8], function: &Function) -> bool
    ensures { result ≡ spec.is_handler p.now word.now function.now }
{
    is_called(p.names.as_slice(), function.name, word)
        && function.params.as_slice().is_empty()
        && function.ret.is_none()
}

fn position_of(p: &Program, word: &[u8]) -> Option<usize>
    ensures { result ≡ position (spec.is_handler p.now word.now) p.now.functions }
{
    let functions = p.functions.as_slice();
    functions
        .iter()
        .position(|function| is_handler(p, word, function))
}

/// The number of the function of that name without parameters and without a result; the count of functions where there
/// is none.
pub(crate) fn handler_number(code: &Code, word: &[u8]) -> u32
    ensures { result ≡ handler_number code.now word.now }
{
    let p = code.program();
    let count = p.functions.as_slice().len();
    position_of(p, word).unwrap_or(count) as u32
}
