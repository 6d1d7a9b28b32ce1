// Servers from their texts.

ghost use Rattle.std.specs.Prelude.{◌≡◌, true, IfOk};
ghost use Rattle.src_meaning.specs.Valid.{IsValid};
ghost use Rattle.sys_run.specs.Events.{IsWithin};

use c_check::check::check;
use c_lex::lex;
use c_parse::program::parse;
use cg_program::code::Code;
use cg_program::compiler::compile;
use lu_base::Name;
use lu_lines::{Notes, line_of};
use sqlite_items::Items;
use src_tree::program::Program;
use std::alloc::Global;
use std::test::Fail;
use sys_run::{Event, ServerCode, System};

/// A server as a test gives it: its name, its number and its text.
pub type Text = (&'static str, i32, &'static str);

fn program_of(alloc: Global, text: &str) -> Result<Program, Fail>
    ensures { IfOk result IsValid }
{
    let tokens = lex(alloc, text.as_bytes())?;
    let tree = parse(alloc, tokens.as_slice())?;
    match check(alloc, tree.as_slice()) {
        Ok(program) => Ok(program),
        Err(_) => Err("the text is refused".into()),
    }
}

fn code_of(alloc: Global, text: &str) -> Result<Code, Fail> {
    let program = program_of(alloc, text)?;
    let filters = Items::new(alloc);
    match compile(alloc, &program, filters) {
        Ok(code) => Ok(code),
        Err(_) => Err("the program is not compiled".into()),
    }
}

/// Whether an event is one of no update, whose server is one of so many.
fn is_within(event: &Event, count: usize) -> bool
    ensures { result ≡ true → IsWithin count event.now }
{
    match event {
        Event::Boot | Event::Finish => true,
        Event::Send { server, .. } | Event::Run { server, .. } | Event::Dump { server } => {
            *server < count
        }
        _ => false,
    }
}

/// The lines that the boot of these servers, the events and the end tell.
pub fn transcript(alloc: Global, texts: &[Text], events: &[Event]) -> Result<Vec<u8>, Fail> {
    let mut names = Vec::new(alloc);
    let mut codes = Vec::new(alloc);
    for (name, _, text) in texts {
        names.push(Name::new(String::from_str(alloc, name)?))?;
        codes.push(code_of(alloc, text)?)?;
    }
    let mut servers = Vec::new(alloc);
    for ((name, code), (_, number, _)) in names.iter().zip(&codes).zip(texts) {
        servers.push(ServerCode {
            name,
            number: *number,
            version: 1,
            code,
        })?;
    }
    let mut system = System::new(alloc, servers.as_slice())?;
    let mut lines = Vec::new(alloc);
    tell(alloc, &mut system, &Event::Boot, &mut lines)?;
    for event in events {
        tell(alloc, &mut system, event, &mut lines)?;
    }
    tell(alloc, &mut system, &Event::Finish, &mut lines)?;
    Ok(lines)
}

// One event, and the lines of what it tells.
fn tell(
    alloc: Global,
    system: &mut System<'_>,
    event: &Event,
    lines: &mut Vec<u8>,
) -> Result<(), Fail> {
    if !is_within(event, system.count()) {
        return Err("no such event".into());
    }
    let mut notes = Notes::fresh(alloc);
    system.event(event, &mut notes)?;
    for note in notes.list() {
        let line = line_of(alloc, note)?;
        lines.extend_from_slice(line.as_slice())?;
    }
    Ok(())
}
