// Texts compiled and run, with ample memory.

ghost use Rattle.std.specs.Prelude.{◌≡◌, [], IfOk};
ghost use Rattle.std.specs.Bool.{OnTrue};
ghost use Rattle.src_meaning.specs.Valid.{IsValid};
ghost use Rattle.bm_code.specs.Accepted.{HasParameters, IsAccepted};

use bm_code::code::MachineCode;
use bm_code::stop::Stop;
use bm_cpu::machine::Machine;
use bm_isa::Instr;
use bm_mem::{Bytes, VecBytes};
use c_check::check::check;
use c_lex::lex;
use c_parse::program::parse;
use cg_program::code::Code;
use cg_program::compiler::compile;
use lu_base::Message;
use lu_base::limits::CALL_TICKS;
use sqlite_items::Items;
use src_tree::program::Program;
use std::alloc::{AllocError, Global};
use std::test::Fail;

/// The program of a text.
pub fn program_of(alloc: Global, text: &str) -> Result<Program, Fail>
    ensures { IfOk result IsValid }
{
    let tokens = lex(alloc, text.as_bytes())?;
    let tree = parse(alloc, tokens.as_slice())?;
    match check(alloc, tree.as_slice()) {
        Ok(program) => Ok(program),
        Err(_) => Err("the text is refused".into()),
    }
}

/// The code of a text, without filters.
pub fn code_of(alloc: Global, text: &str) -> Result<Code, Fail> {
    let program = program_of(alloc, text)?;
    let filters = Items::new(alloc);
    match compile(alloc, &program, filters) {
        Ok(code) => Ok(code),
        Err(_) => Err("the program is not compiled".into()),
    }
}

/// The number of the function of a name.
fn number_of(code: &MachineCode, name: &str) -> Result<u32, Fail> {
    let names = code.names.as_slice();
    let mut number: u32 = 0;
    for function in code.functions.as_slice() {
        if let Some(found) = names.get(function.name as usize)
            && found.as_str() == name
        {
            return Ok(number);
        }
        number = number.saturating_add(1);
    }
    Err("there is no such function".into())
}

/// The instructions of the function of a name.
pub fn listing<'c>(code: &'c MachineCode, name: &str) -> Result<&'c [Instr], Fail> {
    let number = number_of(code, name)?;
    match code.functions.as_slice().get(number as usize) {
        Some(function) => Ok(function.code.as_slice()),
        None => Err("there is no such function".into()),
    }
}

/// Whether a function has no parameters.
fn is_plain(code: &MachineCode, number: u32) -> bool
    ensures { OnTrue result (HasParameters code.now number 0) }
{
    let Some(function) = code.functions.as_slice().get(number as usize) else {
        return false;
    };
    let signatures = code.types.parts().signatures.as_slice();
    let Some(signature) = signatures.get(function.signature as usize) else {
        return false;
    };
    signature.params.as_slice().is_empty()
}

/// How many arguments are written: all without the zeros at the end.
fn written_count(arguments: &[i32]) -> usize {
    let mut count: usize = 0;
    for (index, value) in arguments.iter().enumerate() {
        if *value != 0 {
            count = index.saturating_add(1);
        }
    }
    count
}

/// Puts a message as a line `C T A0 .. A5`, without the zeros at its end.
fn put_line(alloc: Global, lines: &mut String, to: i32, message: &Message) -> Result<(), Fail> {
    let kind = message.kind;
    lines.push_str(format!(in alloc; "{to} {kind}")?.as_str())?;
    let count = written_count(message.arg.as_slice());
    for value in message.arg.iter().take(count) {
        lines.push_str(format!(in alloc; " {value}")?.as_str())?;
    }
    lines.push_str("\n")?;
    Ok(())
}

/// Calls a function without parameters to its end. Each send is a line, and so is a trap.
fn run_named(
    alloc: Global,
    machine: &mut Machine<VecBytes>,
    code: &MachineCode,
    name: &str,
    lines: &mut String,
) -> Result<(), Fail>
    requires { machine.old.code ≡ code.now }
    ensures { machine.new.code ≡ code.now }
{
    let number = number_of(code, name)?;
    if !is_plain(code, number) || machine.running() {
        return Err("the function can't be called".into());
    }
    machine.start(number, &[]);
    match machine.run(CALL_TICKS) {
        Stop::Returned(_) => {
            for (to, message) in machine.outbox() {
                put_line(alloc, lines, *to, message)?;
            }
        }
        Stop::Trapped(trap) => lines.push_str(format!(in alloc; "{trap:?}\n")?.as_str())?,
        Stop::Paused => lines.push_str("paused\n")?,
        Stop::Memory => lines.push_str("memory\n")?,
    }
    machine.clear_outbox();
    Ok(())
}

/// A function that sets `m_in` to the message of a line `C T A0 .. A5`, calls `on_message`, and zeroes both messages.
fn delivery_of(alloc: Global, number: usize, line: &str) -> Result<String, Fail> {
    let mut text = format!(in alloc; "void deliver_{number}(void) {{ m_in = no_message;\n")?;
    for (index, word) in line.split(" ").enumerate() {
        let set = match index {
            0 => format!(in alloc; "m_in.source = {word};\n")?,
            1 => format!(in alloc; "m_in.type = {word};\n")?,
            _ => {
                let at = index.saturating_sub(2);
                format!(in alloc; "m_in.arg[{at}] = {word};\n")?
            }
        };
        text.push_str(set.as_str())?;
    }
    text.push_str("on_message(); m_in = no_message; m_out = no_message; }\n")?;
    Ok(text)
}

/// A server's text with a function for each line of messages.
fn with_deliveries(alloc: Global, server: &str, messages: &str) -> Result<String, Fail> {
    let mut text = String::from_str(alloc, server)?;
    text.push_str("struct message no_message;\n")?;
    for (number, line) in messages.lines().enumerate() {
        text.push_str(delivery_of(alloc, number, line)?.as_str())?;
    }
    Ok(text)
}

/// Starts a server, and delivers so many messages to it.
fn run_all(
    alloc: Global,
    machine: &mut Machine<VecBytes>,
    code: &MachineCode,
    count: usize,
    lines: &mut String,
) -> Result<(), Fail>
    requires { machine.old.code ≡ code.now }
{
    run_named(alloc, machine, code, "init", lines)?;
    for number in 0..count {
        let name = format!(in alloc; "deliver_{number}")?;
        run_named(alloc, machine, code, name.as_str(), lines)?;
    }
    Ok(())
}

/// What a machine's program answers to so many messages.
fn lines_of(alloc: Global, code: &MachineCode, count: usize) -> Result<String, Fail>
    requires { IsAccepted code.now }
{
    let mut machine: Machine<VecBytes> = Machine::new(alloc, code, VecBytes::fresh(alloc))?;
    machine.set_world(alloc, 1, &[1, 2])?;
    let mut lines = String::new(alloc);
    run_all(alloc, &mut machine, code, count, &mut lines)?;
    Ok(lines)
}

/// What a server that is started answers to messages `C T A0 .. A5`, one a line: each send and each trap as a line.
pub fn answers(alloc: Global, server: &str, messages: &str) -> Result<String, Fail> {
    let text = with_deliveries(alloc, server, messages)?;
    let code = code_of(alloc, text.as_str())?;
    lines_of(alloc, code.machine(), messages.lines().count())
}
