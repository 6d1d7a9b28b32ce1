// Servers that boot and answer. What is expected of each comes from the rules.

use crate::driver::answers;
use std::test::Fail;

pub const SUM: &str = r##"int n;
void init(void) { }
void on_message(void) {
  n = n + m_in.arg[0];
  m_out.type = m_in.type + 100;
  m_out.arg[0] = n;
  send(m_in.source);
}
"##;

const WIDE_SUM: &str = r##"long long n;
void init(void) { }
void on_message(void) {
  n = n + m_in.arg[0];
  m_out.type = m_in.type + 100;
  m_out.arg[0] = n;
  m_out.arg[1] = n / 1000;
  send(m_in.source);
}
"##;

/// A table of processes, with calls by pointer.
const TABLE: &str = r##"struct proc { int used; int pid; struct proc *next; };
struct proc tab[64];
struct proc *limit;
struct proc *head;
int next_pid;
void do_new(void);
void do_list(void);
void (*calls[2])(void) = { do_new, do_list };
void init(void) { limit = &tab[64]; next_pid = 1; }
void do_new(void) {
  struct proc *p = tab;
  while (p < limit && p->used != 0) { p = p + 1; }
  if (p == limit) { m_out.arg[0] = -1; return; }
  p->used = 1;
  p->pid = next_pid;
  next_pid = next_pid + 1;
  p->next = head;
  head = p;
  m_out.arg[0] = p->pid;
}
void do_list(void) {
  int s = 0;
  struct proc *p = head;
  while (p != 0) { s = s * 10 + p->pid; p = p->next; }
  m_out.arg[0] = s;
}
void on_message(void) {
  m_out.type = m_in.type;
  if (m_in.type < 0 || m_in.type > 1) { m_out.arg[0] = -2; }
  else { calls[m_in.type](); }
  send(m_in.source);
}
"##;

/// The table with wider entries.
const WIDE_TABLE: &str = r##"struct proc { int used; long long start; int pid; struct proc *next; };
struct proc tab[64];
struct proc *limit;
struct proc *head;
int next_pid;
void do_new(void);
void do_list(void);
void (*calls[2])(void) = { do_new, do_list };
void init(void) { limit = &tab[64]; next_pid = 1; }
void do_new(void) {
  struct proc *p = tab;
  while (p < limit && p->used != 0) { p = p + 1; }
  if (p == limit) { m_out.arg[0] = -1; return; }
  p->used = 1;
  p->start = 7;
  p->pid = next_pid;
  next_pid = next_pid + 1;
  p->next = head;
  head = p;
  m_out.arg[0] = p->pid;
}
void do_list(void) {
  int s = 0;
  long long t = 0;
  struct proc *p = head;
  while (p != 0) { s = s * 10 + p->pid; t = t + p->start; p = p->next; }
  m_out.arg[0] = s;
  m_out.arg[1] = t;
}
void on_message(void) {
  m_out.type = m_in.type;
  if (m_in.type < 0 || m_in.type > 1) { m_out.arg[0] = -2; }
  else { calls[m_in.type](); }
  send(m_in.source);
}
"##;

/// A node that two nodes share.
pub const SHARED: &str = r##"struct node { int v; struct node *next; };
struct node *a;
struct node *b;
struct node *mk(int v, struct node *next) {
  struct node *p = malloc(sizeof(struct node));
  p->v = v;
  p->next = next;
  return p;
}
void init(void) { struct node *s = mk(7, 0); a = mk(1, s); b = mk(2, s); }
void on_message(void) {
  if (m_in.type == 1) { a->next->v = m_in.arg[0]; }
  m_out.type = 5;
  m_out.arg[0] = b->next->v;
  send(m_in.source);
}
"##;

/// A cycle of three nodes.
const CYCLE: &str = r##"struct node { int v; struct node *next; };
struct node *mk(int v, struct node *next) {
  int *w = malloc(sizeof(int));
  struct node *p = malloc(sizeof(struct node));
  p->v = v;
  p->next = next;
  return p;
}
struct node *head;
void init(void) {
  struct node *p = mk(3, 0);
  struct node *q = mk(2, p);
  struct node *r = mk(1, q);
  p->next = r;
  head = r;
  p = mk(9, 0);
}
void on_message(void) {
  m_out.arg[0] = head->v;
  m_out.arg[1] = head->next->v;
  m_out.arg[2] = head->next->next->v;
  m_out.arg[3] = head->next->next->next->v;
  send(m_in.source);
}
"##;

/// A pointer into an element of an array.
const INSIDE: &str = r##"struct slot { short k; int next; };
struct slot tab[8];
int *cur;
void init(void) { tab[5].next = 50; cur = &tab[5].next; }
void on_message(void) {
  *cur = *cur + m_in.arg[0];
  m_out.type = 1;
  m_out.arg[0] = tab[5].next;
  send(m_in.source);
}
"##;

pub const UNION: &str = r##"union val { int i; int *p; };
struct item { int kind; union val v; };
int x;
struct item it;
void init(void) { x = 4; it.v.p = &x; }
void on_message(void) { m_out.type = 1; m_out.arg[0] = *it.v.p; send(m_in.source); it.v.i = 1; }
"##;

pub const LOOP: &str = r##"int n;
void init(void) { }
void on_message(void) {
  int i;
  for (i = 0; i < 10; i = i + 1) { n = n + 1; }
  m_out.type = 1;
  m_out.arg[0] = n;
  send(m_in.source);
}
"##;

const FILE: &str = r##"int pending;
int who;
void init(void) { }
void on_message(void) {
  if (m_in.type == 9) { m_out.type = 19; send(m_in.source); return; }
  if (m_in.source == 2) {
    pending = pending - 1;
    m_out.type = 11;
    m_out.arg[0] = m_in.arg[0];
    send(who);
    return;
  }
  pending = pending + 1;
  who = m_in.source;
  m_out.type = m_in.type;
  m_out.arg[0] = m_in.arg[0];
  send(2);
}
"##;

const DISK: &str = r##"void init(void) { }
void on_message(void) {
  m_out.type = 50;
  m_out.arg[0] = m_in.arg[0] + 1;
  send(m_in.source);
}
"##;

const ENTRIES: &str = r##"struct e { int x; };
struct e tab[3];
void init(void) { tab[0].x = 5; tab[2].x = 7; }
void on_message(void) { m_out.type = 1; m_out.arg[0] = tab[m_in.arg[0]].x; send(m_in.source); }
"##;

const DIVISION: &str = r##"void init(void) { }
void on_message(void) {
  m_out.type = 1;
  m_out.arg[0] = 100 / m_in.arg[0];
  send(m_in.source);
}
"##;

const INTEGERS: &str = r##"void init(void) { }
void on_message(void) {
  m_out.type = 1;
  m_out.arg[0] = -7 / 2;
  m_out.arg[1] = -7 % 2;
  m_out.arg[2] = (unsigned char)300;
  m_out.arg[3] = -1 < 1u;
  m_out.arg[4] = (char)200;
  m_out.arg[5] = -8 >> 1;
  send(m_in.source);
}
"##;

const HEAP: &str = r##"char *p;
char *q;
void init(void) { p = calloc(4194304, sizeof(char)); q = malloc(sizeof(char)); }
void on_message(void) {
  m_out.type = 1;
  m_out.arg[0] = p != 0;
  m_out.arg[1] = q != 0;
  send(m_in.source);
}
"##;

/// Globals with initialisers of every kind.
const INITIAL: &str = r##"struct pair { char c; int *p; short s[3]; };
union val { char c; long long n; };
int x = -2;
char text[5] = "hi!";
struct pair pair = { 'a', &x, { 1, -1 } };
union val val;
int twice(int n) { return n + n; }
int (*fn)(int n) = twice;
long long wide = 1 - 4294967296;
short shorts[2] = { 7, -7 };
short *first = shorts;
void init(void) { val.n = -1; }
void on_message(void) {
  m_out.type = *first;
  m_out.arg[0] = text[0] * 256 + text[2] + text[3] + text[4];
  m_out.arg[1] = *pair.p * 1000 + pair.c;
  m_out.arg[2] = pair.s[0] * 100 + pair.s[1] * 10 + pair.s[2];
  m_out.arg[3] = wide >> 32;
  m_out.arg[4] = first[1];
  m_out.arg[5] = val.n;
  send(m_in.source);
  m_out.arg[0] = fn(21);
  send(m_in.source);
}
"##;

/// A server, messages to it, and what it answers.
type Case = (&'static str, &'static str, &'static str);

const CASES: [Case; 17] = [
    (
        SUM,
        "101 1 5\n101 1 -7\n102 2\n",
        "101 101 5\n101 101 -2\n102 102 -2\n",
    ),
    (
        WIDE_SUM,
        "101 1 2147483647\n101 1 1\n",
        "101 101 2147483647 2147483\n101 101 -2147483648 2147483\n",
    ),
    (
        TABLE,
        "100 0\n100 0\n100 1\n100 0\n100 1\n100 2\n100 -1\n",
        "100 0 1\n100 0 2\n100 1 21\n100 0 3\n100 1 321\n100 2 -2\n100 -1 -2\n",
    ),
    (
        WIDE_TABLE,
        "100 0\n100 0\n100 1\n",
        "100 0 1\n100 0 2\n100 1 21 14\n",
    ),
    (SHARED, "100 2\n100 1 9\n", "100 5 7\n100 5 9\n"),
    (CYCLE, "100 1\n", "100 0 1 2 3 1\n"),
    (INSIDE, "100 1\n100 1 3\n", "100 1 50\n100 1 53\n"),
    (UNION, "100 1\n100 1\n", "100 1 4\nUnionMember\n"),
    (LOOP, "100 1\n100 1\n", "100 1 10\n100 1 20\n"),
    (
        FILE,
        "100 1 5\n101 9\n2 50 6\n",
        "2 1 5\n101 19\n100 11 6\n",
    ),
    (DISK, "1 1 5\n", "1 50 6\n"),
    (ENTRIES, "100 1 2\n100 1 3\n", "100 1 7\nBadIndex\n"),
    (
        DIVISION,
        "100 1 4\n101 1 0\n102 1 5\n",
        "100 1 25\nDivZero\n102 1 20\n",
    ),
    (INTEGERS, "100 1\n", "100 1 -3 -1 44 0 -56 -4\n"),
    (HEAP, "100 1\n", "100 1 1\n"),
    (
        INITIAL,
        "100 1\n",
        "100 7 26657 -1903 90 -1 -7 -1\n100 7 42 -1903 90 -1 -7 -1\n",
    ),
    (SUM, "99 1 5\n1000 1 5\n3 1 5\n2 1 5\n", "2 101 20\n"),
];

#[test]
fn servers_answer_so(rt: HostRuntime) -> Result<(), Fail> {
    let alloc = rt.alloc();
    for (server, messages, want) in CASES {
        assert_eq!(rt; answers(alloc, server, messages)?.as_str(), want);
    }
    Ok(())
}
