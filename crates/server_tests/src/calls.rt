// Calls of functions, and filters.

ghost use Rattle.std.specs.Prelude.{length, IfOk};
ghost use Rattle.std.specs.Bool.{OnTrue};
ghost use Rattle.src_meaning.specs.Valid.{IsValid};
ghost use Rattle.bm_code.specs.Accepted.{HasParameters};
ghost use Rattle.cg_program.specs.Compiled.{IsSource, machine_code, source};

use crate::servers::{asking, booted, code_of, deliver, dump_of, program_of};
use bm_code::code::MachineCode;
use bm_mem::VecBytes;
use cg_program::code::Code;
use cg_program::compiler::compile;
use cg_server::{Server, Stop};
use lu_base::Trap;
use lu_base::limits::CALL_TICKS;
use lu_filter::read_filter;
use sqlite_items::Items;
use src_tree::expr::TypedExpr;
use src_tree::program::Program;
use std::alloc::Global;
use std::process::Abort;
use std::test::Fail;

/// Whether a function has so many parameters.
fn has_parameters(code: &MachineCode, number: u32, count: usize) -> bool
    ensures { OnTrue result (HasParameters code.now number count) }
{
    let Some(function) = code.functions.as_slice().get(number as usize) else {
        return false;
    };
    let signatures = code.types.parts().signatures.as_slice();
    let Some(signature) = signatures.get(function.signature as usize) else {
        return false;
    };
    signature.params.as_slice().len() == count
}

/// Whether a function of the code has so many parameters.
fn takes(code: &Code, number: u32, count: usize) -> bool
    ensures { OnTrue result (HasParameters (machine_code code.now) number count) }
{
    has_parameters(code.machine(), number, count)
}

/// Whether a function of the server has so many parameters.
fn is_callable(server: &Server<'_, VecBytes>, number: u32, count: usize) -> bool
    ensures { OnTrue result (HasParameters (machine_code server.now.source) number count) }
{
    takes(server.code(), number, count)
}

/// Calls the function of a number.
fn call(server: &mut Server<'_, VecBytes>, number: u32, arguments: &[u64]) -> Result<Stop, Fail> {
    if !is_callable(server, number, arguments.len()) || !server.idle() {
        return Err("the function can't be called so".into());
    }
    Ok(server.call(number, arguments))
}

/// The functions are numbered as they are declared.
const FUNCTIONS: &str = "int n;
int sum(int a, int b) { n = n + 1; m_out.type = n; return a + b; }
unsigned int rest(unsigned int a, unsigned int b) { return a - b; }
void stop(void) { panic(5); }
void go_on(void) { while (1) { } }
void init(void) { }
void on_message(void) { }
";

/// The word of -7.
const MINUS_SEVEN: u64 = 0xffff_ffff_ffff_fff9;

/// A function's number, its arguments as words, and how its call ends.
type Call = (u32, &'static [u64], Stop);

const CALLS: [Call; 6] = [
    (0, &[2, 3], Stop::Returned(5)),
    (0, &[2, MINUS_SEVEN], Stop::Returned(0xffff_ffff_ffff_fffb)),
    (1, &[2, 3], Stop::Returned(0xffff_ffff)),
    (2, &[], Stop::Trapped(Trap::Panic(5))),
    (3, &[], Stop::Trapped(Trap::Budget)),
    (4, &[], Stop::Returned(0)),
];

const CALLED_DUMP: &str = "dump fn 3
object 00001000 m_in 32 -
object 00001030 m_out 32 -
object 00001060 n 4 02
";

fn call_each(
    rt: &impl Abort,
    alloc: Global,
    server: &mut Server<'_, VecBytes>,
) -> Result<(), Fail> {
    for (number, arguments, stop) in CALLS {
        assert_eq!(rt; call(server, number, arguments)?, stop, "of {number}");
    }
    assert_eq!(rt;
        dump_of(alloc, server, "fn")?.as_slice(),
        CALLED_DUMP.as_bytes()
    );
    Ok(())
}

fn boot_and_call(rt: &impl Abort, alloc: Global, code: &Code) -> Result<(), Fail> {
    let mut server = booted(alloc, code)?;
    call_each(rt, alloc, &mut server)
}

#[test]
fn functions_are_called(rt: HostRuntime) -> Result<(), Fail> {
    let code = code_of(rt.alloc(), FUNCTIONS)?;
    boot_and_call(&rt, rt.alloc(), &code)
}

/// A count of messages that are asked of another server and not yet answered.
const PENDING: &str = "int pending;
void init(void) { }
void on_message(void) {
  if (m_in.source == 2) { pending = pending - 1; } else { pending = pending + 1; }
}
";

/// A filter of a program, from its text.
fn filter_of(alloc: Global, program: &Program, text: &str) -> Result<Items<TypedExpr>, Fail>
    requires { IsValid program.now }
    ensures { IfOk result (λ filters. IsSource (source program.now filters)) }
{
    let filter = read_filter(alloc, program, text)?;
    Ok(Items::from_vec(vec![in alloc; filter]?))
}

/// The code of a text with one filter.
fn code_with(alloc: Global, text: &str, filter: &str) -> Result<Code, Fail> {
    let program = program_of(alloc, text)?;
    let filters = filter_of(alloc, &program, filter)?;
    match compile(alloc, &program, filters) {
        Ok(code) => Ok(code),
        Err(_) => Err("the program is not compiled".into()),
    }
}

/// What the only filter of a server answers.
fn filter(server: &mut Server<'_, VecBytes>) -> Result<&'static str, Fail> {
    if !server.idle() || server.code().filters().is_empty() {
        return Err("there is no filter to be tried".into());
    }
    match server.filter(0) {
        Ok(true) => Ok("true"),
        Ok(false) => Ok("false"),
        Err(Trap::DivZero) => Ok("DivZero"),
        Err(_) => Err("the filter meets another trap".into()),
    }
}

/// Delivers a message of type 1 to its end.
fn deliver_whole(server: &mut Server<'_, VecBytes>, source: i32) -> Result<(), Fail> {
    deliver(server, &asking(source, 1, 0))?;
    match server.run(CALL_TICKS) {
        Stop::Returned(0) => Ok(()),
        _ => Err("the delivery doesn't return".into()),
    }
}

/// What the filter answers at the start, after a request, and after an answer to it.
fn answers(alloc: Global, server: &mut Server<'_, VecBytes>) -> Result<String, Fail> {
    let first = filter(server)?;
    deliver_whole(server, 100)?;
    let second = filter(server)?;
    deliver_whole(server, 2)?;
    let third = filter(server)?;
    Ok(format!(in alloc; "{first} {second} {third}")?)
}

fn code_answers(alloc: Global, code: &Code) -> Result<String, Fail> {
    let mut server = booted(alloc, code)?;
    answers(alloc, &mut server)
}

fn filter_answers(alloc: Global, text: &str) -> Result<String, Fail> {
    let code = code_with(alloc, PENDING, text)?;
    code_answers(alloc, &code)
}

const FILTERS: [(&str, &str); 4] = [
    ("pending == 0", "true false true"),
    ("1", "true true true"),
    ("-pending", "false true false"),
    ("1 / pending", "DivZero true DivZero"),
];

#[test]
fn filters_tell_whether_a_server_is_quiet(rt: HostRuntime) -> Result<(), Fail> {
    let alloc = rt.alloc();
    for (text, want) in FILTERS {
        assert_eq!(rt; filter_answers(alloc, text)?.as_str(), want, "of {text}");
    }
    Ok(())
}
