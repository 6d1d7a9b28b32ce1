// Servers from their texts.

ghost use Rattle.std.specs.Prelude.{IfOk};
ghost use Rattle.src_meaning.specs.Valid.{IsValid};

use bm_mem::{Bytes, VecBytes};
use c_check::check::check;
use c_lex::lex;
use c_parse::program::parse;
use cg_program::code::Code;
use cg_program::compiler::compile;
use cg_server::{Server, Stop};
use lu_base::limits::CALL_TICKS;
use lu_base::{Message, Name};
use lu_lines::{Notes, line_of};
use sqlite_items::Items;
use src_tree::program::Program;
use std::alloc::Global;
use std::test::Fail;

/// The message of type 1 without arguments that client 100 sends.
pub const REQUEST: Message = Message {
    source: 100,
    kind: 1,
    arg: [0; 6],
};

/// A message with one argument.
pub fn asking(source: i32, kind: i32, first: i32) -> Message {
    Message {
        source,
        kind,
        arg: [first, 0, 0, 0, 0, 0],
    }
}

/// The program of a text.
pub fn program_of(alloc: Global, text: &str) -> Result<Program, Fail>
    ensures { IfOk result IsValid }
{
    let tokens = lex(alloc, text.as_bytes())?;
    let tree = parse(alloc, tokens.as_slice())?;
    match check(alloc, tree.as_slice()) {
        Ok(program) => Ok(program),
        Err(_) => Err("the text is refused".into()),
    }
}

/// The code of a text, without filters.
pub fn code_of(alloc: Global, text: &str) -> Result<Code, Fail> {
    let program = program_of(alloc, text)?;
    match compile(alloc, &program, Items::new(alloc)) {
        Ok(code) => Ok(code),
        Err(_) => Err("the program is not compiled".into()),
    }
}

/// The server of number 1, beside one of number 2, at its start.
fn at_start(alloc: Global, code: &Code) -> Result<Server<'_, VecBytes>, Fail> {
    let server = Server::new(alloc, code, 1, &[1, 2], VecBytes::fresh(alloc))?;
    Ok(server)
}

/// Lets `init` run to its end.
fn boot(server: &mut Server<'_, VecBytes>) -> Result<(), Fail> {
    if !server.idle() {
        return Err("a server begins with no call".into());
    }
    server.init();
    match server.run(CALL_TICKS) {
        Stop::Returned(0) => Ok(()),
        _ => Err("init doesn't return".into()),
    }
}

/// The server after its `init`.
pub fn booted(alloc: Global, code: &Code) -> Result<Server<'_, VecBytes>, Fail> {
    let mut server = at_start(alloc, code)?;
    boot(&mut server)?;
    Ok(server)
}

/// Begins a delivery.
pub fn deliver(server: &mut Server<'_, VecBytes>, message: &Message) -> Result<(), Fail> {
    if !server.idle() {
        return Err("another call runs".into());
    }
    server.deliver(message);
    Ok(())
}

/// The lines of the dump of a server in which no call runs.
pub fn dump_of(alloc: Global, server: &Server<'_, VecBytes>, name: &str) -> Result<Vec<u8>, Fail> {
    if !server.idle() {
        return Err("a call runs".into());
    }
    let name = Name::new(String::from_str(alloc, name)?);
    let mut notes = Notes::fresh(alloc);
    server.dump(alloc, &name, &mut notes)?;
    let mut lines = Vec::new(alloc);
    for note in notes.list() {
        lines.extend_from_slice(line_of(alloc, note)?.as_slice())?;
    }
    Ok(lines)
}
