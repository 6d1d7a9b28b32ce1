use lu_base::{Bytes8, CalmShelf, Shelf, ShelfFault};
use lu_gen::generate;
use std::alloc::Global;

const PLAN: &str = r#"schedule = "s"
[[server]]
name = "store"
number = 1
source = "a.c"
[[update]]
name = "up"
server = "store"
from = 1
to = 2
source = "b.c"
"#;

const OLD: &str = "struct cell { int key; int hits; struct cell *next; };
struct cell *heads[64];
int total;
void init(void) { }
void on_message(void) {
  int k = m_in.arg[0];
  struct cell *c = heads[k % 64];
  while (c != 0 && c->key != k) { c = c->next; }
  if (c == 0) {
    c = malloc(sizeof(struct cell));
    if (c == 0) { m_out.type = 2; send(m_in.source); return; }
    c->key = k;
    c->next = heads[k % 64];
    heads[k % 64] = c;
    total = total + 1;
  }
  c->hits = c->hits + 1;
  m_out.type = 1;
  m_out.arg[0] = c->hits;
  m_out.arg[1] = total;
  send(m_in.source);
}
";

const NEW: &str = "struct cell { struct cell *next; long long hits; int key; };
struct cell *heads[64];
int total;
void init(void) { }
void on_message(void) {
  int k = m_in.arg[0];
  struct cell *c = heads[k % 64];
  while (c != 0 && c->key != k) { c = c->next; }
  if (c == 0) {
    c = malloc(sizeof(struct cell));
    if (c == 0) { m_out.type = 2; send(m_in.source); return; }
    c->key = k;
    c->next = heads[k % 64];
    heads[k % 64] = c;
    total = total + 1;
  }
  c->hits = c->hits + 1;
  m_out.type = 1;
  m_out.arg[0] = c->hits;
  m_out.arg[1] = total;
  send(m_in.source);
}
";

fn text_of(alloc: Global, shelf: &mut CalmShelf, name: &str) -> Result<Bytes8, ShelfFault> {
    shelf.read(alloc, name, 1_048_576)
}

// Whether the text has this line at this place, counted from 0.
fn is_at(text: &[u8], line: usize, wanted: &str) -> bool {
    let mut rest = text;
    for _ in 0..line {
        match rest.iter().position(|b| *b == b'\n') {
            Some(end) => rest = &rest[end + 1..],
            None => return false,
        }
    }
    let end = rest.iter().position(|b| *b == b'\n').unwrap_or(rest.len());
    &rest[..end] == wanted.as_bytes()
}

#[test]
fn generates_the_files(rt: HostRuntime) -> Result<(), ShelfFault> {
    let alloc = rt.alloc();
    let mut shelf = generate(alloc, 0)?;
    for (name, wanted) in [("plan", PLAN), ("a.c", OLD), ("b.c", NEW)] {
        let text = text_of(alloc, &mut shelf, name)?;
        assert!(&rt; text.as_slice() == wanted.as_bytes(), "{name}");
    }
    assert!(&rt; matches!(text_of(alloc, &mut shelf, "c.c"), Err(ShelfFault::Absent)));
    Ok(())
}

#[test]
fn generates_the_schedule(rt: HostRuntime) -> Result<(), ShelfFault> {
    let alloc = rt.alloc();
    let least = [
        (0, "send 101 store 1 3182"),
        (1, "drain 1"),
        (2, "send 102 store 1 1872"),
        (998, "send 104 store 1 2467"),
        (1000, "update up"),
        (1001, "work up 100000"),
        (1002, "send 105 store 1 3835"),
        (2000, "send 100 store 1 2576"),
        (2001, "drain 1"),
        (2002, ""),
    ];
    let greatest = [
        (0, "send 101 store 1 3157"),
        (1, "drain 1"),
        (2, "send 102 store 1 23"),
        (1000, "update up"),
        (1001, "work up 100000"),
        (1002, "send 105 store 1 3381"),
        (1003, "drain 1"),
        (2000, "send 100 store 1 3495"),
        (2001, "drain 1"),
        (2002, ""),
    ];
    for (number, rows) in [(0, least), (u32::MAX, greatest)] {
        let mut shelf = generate(alloc, number)?;
        let text = text_of(alloc, &mut shelf, "s")?;
        let ends = text.as_slice().iter().filter(|b| **b == b'\n').count();
        assert_eq!(&rt; ends, 2002);
        for (line, wanted) in rows {
            assert!(&rt; is_at(text.as_slice(), line, wanted), "{line}: {wanted}");
        }
    }
    Ok(())
}
