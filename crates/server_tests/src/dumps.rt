// Dumps. The first object stands at 0x1000, and the one behind an object at `a` of size `s` at `a + s + 16`, rounded up to 16.
// Bytes go from the lowest, without the zeros at their end.

use crate::servers::{asking, booted, code_of, deliver, dump_of};
use bm_mem::VecBytes;
use cg_program::code::Code;
use cg_server::{Server, Stop};
use lu_base::limits::CALL_TICKS;
use std::alloc::Global;
use std::process::Abort;
use std::test::Fail;

const CYCLE: &str = "struct node { int v; struct node *next; };
struct node *mk(int v, struct node *next) {
  struct node *p = malloc(sizeof(struct node));
  p->v = v;
  p->next = next;
  return p;
}
struct node *head;
void init(void) {
  struct node *p = mk(3, 0);
  struct node *q = mk(2, p);
  struct node *r = mk(1, q);
  p->next = r;
  head = r;
  p = mk(9, 0);
}
void on_message(void) { }
";

const CYCLE_DUMP: &str = "dump cy 7
object 00001000 m_in 32 -
object 00001030 m_out 32 -
object 00001060 head 4 c010
object 00001080 mk#0:0 8 03000000c010
object 000010a0 mk#0:1 8 020000008010
object 000010c0 mk#0:2 8 01000000a010
object 000010e0 mk#0:3 8 09
";

/// The first of two heap objects is dead.
const FREED: &str = "int *p;
int *q;
void init(void) { p = malloc(sizeof(int)); q = malloc(sizeof(int)); *q = 258; free(p); }
void on_message(void) { }
";

const FREED_DUMP: &str = "dump fr 5
object 00001000 m_in 32 -
object 00001030 m_out 32 -
object 00001060 p 4 a010
object 00001080 q 4 c010
object 000010c0 init#1:1 4 0201
";

/// A function pointer's bytes are the function's number and 1.
const NUMBERED: &str = "void first(void) { }
void second(void) { }
void (*f)(void) = second;
short s[3] = { 1, -1 };
void init(void) { }
void on_message(void) { }
";

const NUMBERED_DUMP: &str = "dump nb 4
object 00001000 m_in 32 -
object 00001030 m_out 32 -
object 00001060 f 4 02
object 00001080 s 6 0100ffff
";

const DUMPS: [(&str, &str, &str); 3] = [
    ("cy", CYCLE, CYCLE_DUMP),
    ("fr", FREED, FREED_DUMP),
    ("nb", NUMBERED, NUMBERED_DUMP),
];

/// The dump of a server after its `init`.
fn first_dump(alloc: Global, code: &Code, name: &str) -> Result<Vec<u8>, Fail> {
    let server = booted(alloc, code)?;
    dump_of(alloc, &server, name)
}

fn text_dump(alloc: Global, text: &str, name: &str) -> Result<Vec<u8>, Fail> {
    let code = code_of(alloc, text)?;
    first_dump(alloc, &code, name)
}

#[test]
fn dumps_tell_the_live_objects(rt: HostRuntime) -> Result<(), Fail> {
    let alloc = rt.alloc();
    for (name, text, dump) in DUMPS {
        assert_eq!(rt; text_dump(alloc, text, name)?.as_slice(), dump.as_bytes());
    }
    Ok(())
}

const SUM: &str = "int n;
void init(void) { }
void on_message(void) {
  n = n + m_in.arg[0];
  m_out.type = 7;
  if (n > 300) { panic(n); }
}
";

const SUM_DUMP: &str = "dump fs 3
object 00001000 m_in 32 -
object 00001030 m_out 32 -
object 00001060 n 4 2c01
";

const TRAPPED_DUMP: &str = "dump fs 3
object 00001000 m_in 32 6500000002000000e703
object 00001030 m_out 32 0000000007
object 00001060 n 4 1305
";

/// Two deliveries, of which the second traps.
fn deliver_two(
    rt: &impl Abort,
    alloc: Global,
    server: &mut Server<'_, VecBytes>,
) -> Result<(), Fail> {
    deliver(server, &asking(100, 1, 300))?;
    assert_eq!(rt; server.run(CALL_TICKS), Stop::Returned(0));
    assert_eq!(rt;
        dump_of(alloc, server, "fs")?.as_slice(),
        SUM_DUMP.as_bytes()
    );
    deliver(server, &asking(101, 2, 999))?;
    assert!(rt; matches!(server.run(CALL_TICKS), Stop::Trapped(_)));
    assert_eq!(rt;
        dump_of(alloc, server, "fs")?.as_slice(),
        TRAPPED_DUMP.as_bytes()
    );
    Ok(())
}

fn boot_and_deliver(rt: &impl Abort, alloc: Global, code: &Code) -> Result<(), Fail> {
    let mut server = booted(alloc, code)?;
    deliver_two(rt, alloc, &mut server)
}

#[test]
fn messages_are_zero_after_a_delivery_and_stay_after_a_trap(rt: HostRuntime) -> Result<(), Fail> {
    let code = code_of(rt.alloc(), SUM)?;
    boot_and_deliver(&rt, rt.alloc(), &code)
}
