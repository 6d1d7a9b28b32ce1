//! The texts of the generated files that the number doesn't change.

/// The plan: one server, and one update of it.
pub const PLAN: &str = r#"schedule = "s"
[[server]]
name = "store"
number = 1
source = "a.c"
[[update]]
name = "up"
server = "store"
from = 1
to = 2
source = "b.c"
"#;

/// The first line of the old program: a cell has its fields in this order.
pub const OLD_CELL: &str = "struct cell { int key; int hits; struct cell *next; };\n";

/// The first line of the new program: the fields stand in another order, and one is wider.
pub const NEW_CELL: &str = "struct cell { struct cell *next; long long hits; int key; };\n";

/// Both programs behind their first line: a table of cells by key, which counts how often each key came.
pub const PROGRAM: &str = "struct cell *heads[64];
int total;
void init(void) { }
void on_message(void) {
  int k = m_in.arg[0];
  struct cell *c = heads[k % 64];
  while (c != 0 && c->key != k) { c = c->next; }
  if (c == 0) {
    c = malloc(sizeof(struct cell));
    if (c == 0) { m_out.type = 2; send(m_in.source); return; }
    c->key = k;
    c->next = heads[k % 64];
    heads[k % 64] = c;
    total = total + 1;
  }
  c->hits = c->hits + 1;
  m_out.type = 1;
  m_out.arg[0] = c->hits;
  m_out.arg[1] = total;
  send(m_in.source);
}
";
