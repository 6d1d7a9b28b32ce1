// What whole runs tell. What is expected comes from the rules of servers.

use crate::texts::transcript;
use lu_base::Message;
use std::test::Fail;
use sys_run::Event;

const ADDING: &str = "int n;
void init(void) { }
void on_message(void) {
  n = n + m_in.arg[0];
  m_out.type = m_in.type + 100;
  m_out.arg[0] = n;
  send(m_in.source);
}";

const DIVIDING: &str = "int n;
void init(void) { }
void on_message(void) {
  m_out.type = m_in.type;
  m_out.arg[0] = 100 / m_in.arg[0];
  send(m_in.source);
}";

const LOOPING: &str = "int n;
void init(void) { }
void on_message(void) {
  int i;
  for (i = 0; i < 10; i = i + 1) { n = n + 1; }
  m_out.type = 1;
  m_out.arg[0] = n;
  send(m_in.source);
}";

const ASKING: &str = "int client;
void init(void) { client = 100; }
void on_message(void) {
  m_out.type = m_in.type + 1;
  m_out.arg[0] = m_in.arg[0];
  if (m_in.source >= 100) { client = m_in.source; send(2); }
  else { m_out.arg[1] = m_in.type; send(client); }
}";

const LINKING: &str = "struct node { int v; struct node *next; };
struct node *mk(int v, struct node *next) {
  struct node *p = malloc(sizeof(struct node));
  p->v = v;
  p->next = next;
  return p;
}
struct node *head;
void init(void) {
  struct node *p = mk(3, 0);
  struct node *q = mk(2, p);
  struct node *r = mk(1, q);
  p->next = r;
  head = r;
  p = mk(9, 0);
}
void on_message(void) { }";

const OBJECTS: &str = "boot cy
dump cy 7
object 00001000 m_in 32 -
object 00001030 m_out 32 -
object 00001060 head 4 c010
object 00001080 mk#0:0 8 03000000c010
object 000010a0 mk#0:1 8 020000008010
object 000010c0 mk#0:2 8 01000000a010
object 000010e0 mk#0:3 8 09
end
";

fn sent(client: i32, server: usize, kind: i32, first: i32) -> Event {
    let message = Message {
        source: client,
        kind,
        arg: [first, 0, 0, 0, 0, 0],
    };
    Event::Send {
        client,
        server,
        message,
    }
}

fn run(server: usize, ticks: u32) -> Event {
    Event::Run { server, ticks }
}

const WHOLE: u32 = 1_000_000;

#[test]
fn a_server_answers_in_order(rt: HostRuntime) -> Result<(), Fail> {
    let alloc = rt.alloc();
    let events = [
        sent(101, 0, 1, 5),
        sent(101, 0, 1, -7),
        sent(102, 0, 2, 0),
        run(0, WHOLE),
        run(0, WHOLE),
        run(0, WHOLE),
        run(0, WHOLE),
    ];
    let lines = transcript(alloc, &[("fs", 1, ADDING)], &events)?;
    assert_eq!(rt;
        lines.as_slice(),
        b"boot fs\nreply fs 101 101 5\nreply fs 101 101 -2\nreply fs 102 102 -2\nend\n".as_slice()
    );
    Ok(())
}

#[test]
fn a_delivery_goes_on_where_it_paused(rt: HostRuntime) -> Result<(), Fail> {
    let alloc = rt.alloc();
    let events = [
        sent(100, 0, 1, 0),
        run(0, 3),
        sent(101, 0, 1, 0),
        run(0, 8),
        run(0, 3),
        run(0, 3),
    ];
    let lines = transcript(alloc, &[("lo", 1, LOOPING)], &events)?;
    assert_eq!(rt;
        lines.as_slice(),
        b"boot lo\nreply lo 100 1 10\nend\n".as_slice()
    );
    Ok(())
}

#[test]
fn a_dead_server_answers_what_waited(rt: HostRuntime) -> Result<(), Fail> {
    let alloc = rt.alloc();
    let events = [
        sent(100, 0, 1, 4),
        sent(101, 0, 1, 0),
        sent(102, 0, 1, 5),
        run(0, WHOLE),
        run(0, WHOLE),
        sent(103, 0, 1, 1),
        run(0, WHOLE),
    ];
    let lines = transcript(alloc, &[("dz", 1, DIVIDING)], &events)?;
    assert_eq!(rt;
        lines.as_slice(),
        b"boot dz\nreply dz 100 1 25\ntrap dz DivZero\nreply dz 102 -1\nreply dz 103 -1\nend\n".as_slice()
    );
    Ok(())
}

#[test]
fn servers_send_to_servers(rt: HostRuntime) -> Result<(), Fail> {
    let alloc = rt.alloc();
    let events = [
        sent(100, 0, 1, 4),
        run(1, WHOLE),
        run(0, WHOLE),
        run(1, WHOLE),
        run(0, WHOLE),
        sent(100, 0, 1, 0),
        run(0, WHOLE),
        run(1, WHOLE),
        run(0, WHOLE),
    ];
    let texts = [("ask", 1, ASKING), ("dz", 2, DIVIDING)];
    let lines = transcript(alloc, &texts, &events)?;
    assert_eq!(rt;
        lines.as_slice(),
        b"boot ask\nboot dz\nreply ask 100 3 25 2\ntrap dz DivZero\nend\n".as_slice()
    );
    Ok(())
}

#[test]
fn a_dump_shows_the_live_objects(rt: HostRuntime) -> Result<(), Fail> {
    let alloc = rt.alloc();
    let events = [Event::Dump { server: 0 }];
    let lines = transcript(alloc, &[("cy", 1, LINKING)], &events)?;
    assert_eq!(rt; lines.as_slice(), OBJECTS.as_bytes());
    Ok(())
}

#[test]
fn a_dump_of_a_busy_or_dead_server_shows_no_objects(rt: HostRuntime) -> Result<(), Fail> {
    let alloc = rt.alloc();
    let events = [
        sent(100, 0, 1, 0),
        run(0, 3),
        Event::Dump { server: 0 },
        sent(100, 1, 1, 0),
        run(1, WHOLE),
        Event::Dump { server: 1 },
    ];
    let texts = [("lo", 1, LOOPING), ("dz", 2, DIVIDING)];
    let lines = transcript(alloc, &texts, &events)?;
    assert_eq!(rt;
        lines.as_slice(),
        b"boot lo\nboot dz\ndump lo busy\ntrap dz DivZero\ndump dz dead\nend\n".as_slice()
    );
    Ok(())
}
