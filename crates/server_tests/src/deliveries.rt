// Deliveries. What each answers is counted and computed by hand, from the rules of the language: an entry of a function and a
// turn of a loop cost a tick each, and a delivery has 1,000,000.

use crate::servers::{REQUEST, booted, code_of, deliver};
use bm_mem::VecBytes;
use cg_program::code::Code;
use cg_server::{Server, Stop};
use lu_base::limits::CALL_TICKS;
use lu_base::{Message, Trap};
use std::alloc::Global;
use std::process::Abort;
use std::test::Fail;

/// Eleven ticks: the entry and ten turns.
const LOOP: &str = "int n;
void init(void) { }
void on_message(void) {
  int i;
  for (i = 0; i < 10; i = i + 1) { n = n + 1; }
  m_out.type = 1;
  m_out.arg[0] = n;
  send(m_in.source);
}
";

const INTEGERS: &str = "void init(void) { }
void on_message(void) {
  m_out.type = 1;
  m_out.arg[0] = -7 / 2;
  m_out.arg[1] = -7 % 2;
  m_out.arg[2] = (unsigned char)300;
  m_out.arg[3] = -1 < 1u;
  m_out.arg[4] = (char)200;
  m_out.arg[5] = -8 >> 1;
  send(m_in.source);
}
";

const ENDLESS: &str = "void init(void) { }
void on_message(void) { while (1) { } }
";

const RECURSIVE: &str = "void init(void) { }
void on_message(void) { on_message(); }
";

/// The first allocation takes the whole heap, and the next has no room.
const WHOLE_HEAP: &str = "char *p;
char *q;
void init(void) { p = calloc(4194304, sizeof(char)); q = malloc(sizeof(char)); }
void on_message(void) {
  m_out.type = 1;
  m_out.arg[0] = p != 0;
  m_out.arg[1] = q != 0;
  send(m_in.source);
}
";

/// Runs of one delivery, each with its ticks and how it ends.
type Runs<'r> = &'r [(u32, Stop)];

const RUNS: [(&str, Runs<'static>); 7] = [
    (LOOP, &[(3, Stop::Paused), (8, Stop::Returned(0))]),
    (
        LOOP,
        &[(3, Stop::Paused), (7, Stop::Paused), (1, Stop::Returned(0))],
    ),
    (LOOP, &[(0, Stop::Paused), (11, Stop::Returned(0))]),
    (INTEGERS, &[(1, Stop::Returned(0))]),
    (
        ENDLESS,
        &[(999_999, Stop::Paused), (1, Stop::Trapped(Trap::Budget))],
    ),
    (ENDLESS, &[(1_000_000, Stop::Trapped(Trap::Budget))]),
    (RECURSIVE, &[(1_000_000, Stop::Trapped(Trap::Depth))]),
];

/// Delivers a message in these runs.
fn run_so(
    rt: &impl Abort,
    server: &mut Server<'_, VecBytes>,
    text: &str,
    runs: Runs<'_>,
) -> Result<(), Fail> {
    deliver(server, &REQUEST)?;
    for (ticks, stop) in runs {
        assert_eq!(rt; server.run(*ticks), *stop, "{ticks} ticks of {text}");
    }
    Ok(())
}

fn boot_and_run(
    rt: &impl Abort,
    alloc: Global,
    code: &Code,
    text: &str,
    runs: Runs<'_>,
) -> Result<(), Fail> {
    let mut server = booted(alloc, code)?;
    run_so(rt, &mut server, text, runs)
}

fn run_text(rt: &impl Abort, alloc: Global, text: &str, runs: Runs<'_>) -> Result<(), Fail> {
    let code = code_of(alloc, text)?;
    boot_and_run(rt, alloc, &code, text, runs)
}

#[test]
fn deliveries_pause_and_end_by_their_ticks(rt: HostRuntime) -> Result<(), Fail> {
    for (text, runs) in RUNS {
        run_text(&rt, rt.alloc(), text, runs)?;
    }
    Ok(())
}

/// The arguments that each sends back.
const ANSWERS: [(&str, [i32; 6]); 3] = [
    (LOOP, [10, 0, 0, 0, 0, 0]),
    (INTEGERS, [-3, -1, 44, 0, -56, -4]),
    (WHOLE_HEAP, [1, 0, 0, 0, 0, 0]),
];

/// Delivers a message that is answered by one with these arguments.
fn answer_so(
    rt: &impl Abort,
    server: &mut Server<'_, VecBytes>,
    text: &str,
    arg: [i32; 6],
) -> Result<(), Fail> {
    deliver(server, &REQUEST)?;
    assert_eq!(rt; server.run(CALL_TICKS), Stop::Returned(0));
    let answer = Message {
        source: 1,
        kind: 1,
        arg,
    };
    assert_eq!(rt; server.outbox(), [(100, answer)].as_slice(), "of {text}");
    server.clear_outbox();
    assert!(rt; server.outbox().is_empty());
    Ok(())
}

fn boot_and_answer(
    rt: &impl Abort,
    alloc: Global,
    code: &Code,
    text: &str,
    arg: [i32; 6],
) -> Result<(), Fail> {
    let mut server = booted(alloc, code)?;
    answer_so(rt, &mut server, text, arg)
}

fn answer_text(rt: &impl Abort, alloc: Global, text: &str, arg: [i32; 6]) -> Result<(), Fail> {
    let code = code_of(alloc, text)?;
    boot_and_answer(rt, alloc, &code, text, arg)
}

#[test]
fn one_answer_is_sent_back(rt: HostRuntime) -> Result<(), Fail> {
    for (text, arg) in ANSWERS {
        answer_text(&rt, rt.alloc(), text, arg)?;
    }
    Ok(())
}

/// Globals of a number, of a pointer, of a function pointer that is null, and of a union whose active member is a pointer.
const GLOBALS: &str = "union val { int i; int *p; };
struct item { int kind; union val v; };
int n;
int *p;
void (*f)(void);
struct item it;
void init(void) { n = 4; it.v.p = &n; }
void on_message(void) { ";

/// Bodies of `on_message`, and the trap of each.
const TRAPS: [(&str, Trap); 12] = [
    (
        "p = malloc(sizeof(int)); free(p); *p = 1;",
        Trap::BadPointer,
    ),
    ("*p = 1;", Trap::BadPointer),
    ("p = &n + 2;", Trap::PtrRange),
    ("n = p < &n;", Trap::PtrOrder),
    ("free(&n);", Trap::BadFree),
    ("m_out.arg[6] = 1;", Trap::BadIndex),
    ("n = 1 << 32;", Trap::BadShift),
    ("n = 1 / (n - 4);", Trap::DivZero),
    ("f();", Trap::BadCall),
    ("panic(3);", Trap::Panic(3)),
    ("panic(-3);", Trap::Panic(-3)),
    ("n = it.v.i;", Trap::UnionMember),
];

/// Delivers a message to a server with a body that traps so.
fn trap_so(rt: &impl Abort, alloc: Global, body: &str, trap: Trap) -> Result<(), Fail> {
    let text = format!(in alloc; "{GLOBALS}{body} }}\n")?;
    run_text(
        rt,
        alloc,
        text.as_str(),
        &[(CALL_TICKS, Stop::Trapped(trap))],
    )
}

#[test]
fn bodies_trap(rt: HostRuntime) -> Result<(), Fail> {
    for (body, trap) in TRAPS {
        trap_so(&rt, rt.alloc(), body, trap)?;
    }
    Ok(())
}
