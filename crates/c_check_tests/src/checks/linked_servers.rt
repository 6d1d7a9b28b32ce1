// Servers with pointers, each accepted.

use crate::checks::verdicts::refused;
use std::test::Fail;

const SERVERS: &str = r##"int tab[8];
int *lim;
void init(void) { lim = &tab[8]; }
void on_message(void) { }
----
int tab[16];
int *lim;
void init(void) { lim = &tab[16]; }
void on_message(void) { }
----
int tab[16];
int *stop;
void fix(void) { stop = &tab[16]; }
void init(void) { }
void on_message(void) { }
----
int *p;
void init(void) { p = malloc(sizeof(int)); free(p); }
void on_message(void) { }
----
union val { int *p; int i; };
struct item { int kind; union val v; };
int x;
struct item it;
void init(void) { x = 4; it.v.p = &x; }
void on_message(void) { m_out.type = 1; m_out.arg[0] = *it.v.p; send(m_in.source); }
----
union val { int i; int *p; };
struct item { int kind; union val v; };
int x;
struct item it;
void init(void) { x = 4; it.v.p = &x; }
void on_message(void) { m_out.type = 1; m_out.arg[0] = *it.v.p; send(m_in.source); }
----
union val { int i; char *q; };
struct item { int kind; union val v; };
int x;
struct item it;
void init(void) { x = 4; }
void on_message(void) { m_out.type = 1; send(m_in.source); }
----
struct node { int v; struct node *next; };
struct node *mk(int v, struct node *next) {
  struct node *p = malloc(sizeof(struct node));
  p->v = v;
  p->next = next;
  return p;
}
struct node *head;
void init(void) {
  struct node *p = mk(3, 0);
  struct node *q = mk(2, p);
  struct node *r = mk(1, q);
  p->next = r;
  head = r;
  p = mk(9, 0);
}
void on_message(void) { }
----
struct node { int v; struct node *next; };
struct node *mk(int v, struct node *next) {
  int *w = malloc(sizeof(int));
  struct node *p = malloc(sizeof(struct node));
  p->v = v;
  p->next = next;
  return p;
}
struct node *head;
void init(void) {
  struct node *p = mk(3, 0);
  struct node *q = mk(2, p);
  struct node *r = mk(1, q);
  p->next = r;
  head = r;
  p = mk(9, 0);
}
void on_message(void) { }
----
struct e_old { int x; };
struct e { int x; int y; };
void up(struct e_old *o, struct e *w) { w->x = o->x; w->y = 10 / o->x; }
struct e tab[3];
void init(void) { tab[0].x = 5; tab[2].x = 7; }
void on_message(void) { m_out.type = 1; m_out.arg[0] = tab[m_in.arg[0]].y; send(m_in.source); }
----
struct e_old { int x; };
struct e { int x; int y; };
void up(struct e_old *o, struct e *w) { while (1) { } }
struct e tab[3];
void init(void) { tab[0].x = 5; tab[2].x = 7; }
void on_message(void) { m_out.type = 1; m_out.arg[0] = tab[m_in.arg[0]].y; send(m_in.source); }
----
struct e_old { int x; };
struct e { int x; int y; };
void up(struct e_old *o, struct e *w) { w->x = o->x; w->y = o->x + o->x; }
struct e tab[3];
void init(void) { tab[0].x = 5; tab[2].x = 7; }
void on_message(void) { m_out.type = 1; m_out.arg[0] = tab[m_in.arg[0]].y; send(m_in.source); }
----
int t[8];
int *p;
void init(void) { t[7] = 1; }
void on_message(void) { }
----
int t[4];
int *p;
void init(void) {  }
void on_message(void) { }
----
int t[8];
int *p;
void init(void) { p = &t[6]; }
void on_message(void) { }
----
int t[8];
int *p;
void init(void) { p = 0; }
void on_message(void) { }
----
char *p;
char *q;
void init(void) { p = calloc(4194304, sizeof(char)); q = malloc(sizeof(char)); }
void on_message(void) {
  m_out.type = 1;
  m_out.arg[0] = p != 0;
  m_out.arg[1] = q != 0;
  send(m_in.source);
}
----
short *p;
char *q;
void init(void) { p = calloc(4194304, sizeof(short)); q = malloc(sizeof(char)); }
void on_message(void) {
  m_out.type = 1;
  m_out.arg[0] = p != 0;
  m_out.arg[1] = q != 0;
  send(m_in.source);
}
----
void g(void) { }
void (*f)(void) = g;
void init(void) { }
void on_message(void) { }
----
void (*f)(void);
void init(void) { }
void on_message(void) { }
----
int x;
char *c;
void init(void) { c = (char *)(void *)&x + 1; }
void on_message(void) { }
----
int x;
char *c;
void init(void) { }
void on_message(void) { }
----
int *n;
void init(void) { }
void on_message(void) { }
----
struct proc { int used; int pid; struct proc *next; };
struct proc tab[64];
struct proc *limit;
struct proc *head;
int next_pid;
void do_new(void);
void do_list(void);
void (*calls[2])(void) = { do_new, do_list };
void init(void) { limit = &tab[64]; next_pid = 1; }
void do_new(void) {
  struct proc *p = tab;
  while (p < limit && p->used != 0) { p = p + 1; }
  if (p == limit) { m_out.arg[0] = -1; return; }
  p->used = 1;
  p->pid = next_pid;
  next_pid = next_pid + 1;
  p->next = head;
  head = p;
  m_out.arg[0] = p->pid;
}
void do_list(void) {
  int s = 0;
  struct proc *p = head;
  while (p != 0) { s = s * 10 + p->pid; p = p->next; }
  m_out.arg[0] = s;
}
void on_message(void) {
  m_out.type = m_in.type;
  if (m_in.type < 0 || m_in.type > 1) { m_out.arg[0] = -2; }
  else { calls[m_in.type](); }
  send(m_in.source);
}
----
struct proc { int used; long long start; int pid; struct proc *next; };
struct proc tab[64];
struct proc *limit;
struct proc *head;
int next_pid;
void do_new(void);
void do_list(void);
void (*calls[2])(void) = { do_new, do_list };
void init(void) { limit = &tab[64]; next_pid = 1; }
void do_new(void) {
  struct proc *p = tab;
  while (p < limit && p->used != 0) { p = p + 1; }
  if (p == limit) { m_out.arg[0] = -1; return; }
  p->used = 1;
  p->start = 7;
  p->pid = next_pid;
  next_pid = next_pid + 1;
  p->next = head;
  head = p;
  m_out.arg[0] = p->pid;
}
void do_list(void) {
  int s = 0;
  long long t = 0;
  struct proc *p = head;
  while (p != 0) { s = s * 10 + p->pid; t = t + p->start; p = p->next; }
  m_out.arg[0] = s;
  m_out.arg[1] = t;
}
void on_message(void) {
  m_out.type = m_in.type;
  if (m_in.type < 0 || m_in.type > 1) { m_out.arg[0] = -2; }
  else { calls[m_in.type](); }
  send(m_in.source);
}
----
struct node { int v; struct node *next; };
struct node *a;
struct node *b;
struct node *mk(int v, struct node *next) {
  struct node *p = malloc(sizeof(struct node));
  p->v = v;
  p->next = next;
  return p;
}
void init(void) { struct node *s = mk(7, 0); a = mk(1, s); b = mk(2, s); }
void on_message(void) {
  if (m_in.type == 1) { a->next->v = m_in.arg[0]; }
  m_out.type = 5;
  m_out.arg[0] = b->next->v;
  send(m_in.source);
}
----
struct node { long long v; struct node *next; };
struct node *a;
struct node *b;
struct node *mk(long long v, struct node *next) {
  struct node *p = malloc(sizeof(struct node));
  p->v = v;
  p->next = next;
  return p;
}
void init(void) { struct node *s = mk(7, 0); a = mk(1, s); b = mk(2, s); }
void on_message(void) {
  if (m_in.type == 1) { a->next->v = m_in.arg[0]; }
  m_out.type = 5;
  m_out.arg[0] = b->next->v;
  send(m_in.source);
}
----
struct node { int tag; int v; struct node *next; };
struct node *mk(int v, struct node *next) {
  struct node *p = malloc(sizeof(struct node));
  p->v = v;
  p->next = next;
  return p;
}
struct node *head;
void init(void) {
  struct node *p = mk(3, 0);
  struct node *q = mk(2, p);
  struct node *r = mk(1, q);
  p->next = r;
  head = r;
  p = mk(9, 0);
}
void on_message(void) { }
----
struct slot { short k; int next; };
struct slot tab[8];
int *cur;
void init(void) { tab[5].next = 50; cur = &tab[5].next; }
void on_message(void) {
  *cur = *cur + m_in.arg[0];
  m_out.type = 1;
  m_out.arg[0] = tab[5].next;
  send(m_in.source);
}
----
struct slot { long long k; int next; };
struct slot tab[8];
int *cur;
void init(void) { tab[5].next = 50; cur = &tab[5].next; }
void on_message(void) {
  *cur = *cur + m_in.arg[0];
  m_out.type = 1;
  m_out.arg[0] = tab[5].next;
  send(m_in.source);
}
----
struct s { int a[4]; int b; };
struct s g;
int *p;
void init(void) { p = &g.a[4]; }
void on_message(void) { }
----
struct s { int a[4]; int c; int b; };
struct s g;
int *p;
void init(void) { p = &g.a[4]; }
void on_message(void) { }
----
struct s { int a[4]; int b; int c; };
struct s g;
int *p;
void init(void) { p = &g.a[4]; }
void on_message(void) { }
----
struct node { int v; struct node *next; };
struct node *mk(int v, struct node *next) {
  struct node *p = malloc(sizeof(struct node));
  p->v = v;
  p->next = next;
  return p;
}
struct node *head;
void init(void) {
  struct node *p = mk(3, 0);
  struct node *q = mk(2, p);
  struct node *r = mk(4320, q);
  p->next = r;
  head = r;
  p = mk(9, 0);
}
void on_message(void) { }
----
struct e_old { int x; };
struct e { int x; int y; };
void up(struct e_old *o, struct e *w) { w->x = o->x; w->y = o->x + o->x; }
union w { int i; struct e s; };
union w g;
void init(void) { }
void on_message(void) { }
----
void init(void) { }
void on_message(void) {
  m_out.type = 1;
  m_out.arg[0] = sizeof(int *);
  send(m_in.source);
}
----
int *t[200000];
void init(void) { }
void on_message(void) { }
----
int n;
void init(void) { }
void on_message(void) {
  n = n + m_in.arg[0];
  m_out.type = m_in.type + 100;
  m_out.arg[0] = n;
  send(m_in.source);
}
void ad(void) { m_out.type = m_in.type + 1; m_out.arg[0] = m_in.arg[0] * 10; }
----
union val { int i; int *p; };
struct item { int kind; union val v; };
int x;
struct item it;
void init(void) { x = 4; it.v.p = &x; }
void on_message(void) { m_out.type = 1; m_out.arg[0] = it.v.i; send(m_in.source); }
----
int n; int *p; void (*f)(void);
void init(void) { }
void on_message(void) { f(); }
----
int n; int *p; void (*f)(void);
void init(void) { }
void on_message(void) { free(&n); }
----
int n; int *p; void (*f)(void);
void init(void) { }
void on_message(void) { m_out.arg[6] = 1; }
----
int n; int *p; void (*f)(void);
void init(void) { }
void on_message(void) { n = 1 << 32; }
----
int n; int *p; void (*f)(void);
void init(void) { }
void on_message(void) { n = p < &n; }
----
int n; int *p; void (*f)(void);
void init(void) { }
void on_message(void) { p = malloc(sizeof(int)); free(p); *p = 1; }
----
int n; int *p; void (*f)(void);
void init(void) { }
void on_message(void) { p = &n + 2; }
----
int n; int *p; void (*f)(void);
void init(void) { }
void on_message(void) { panic(3); }
----
struct node { int v; struct node *next; };
struct node *a;
struct node *b;
struct node *mk(int v, struct node *next) {
  struct node *p = malloc(sizeof(struct node));
  p->v = v;
  p->next = next;
  return p;
}
void init(void) { struct node *s = mk(7, 0); a = mk(1, s); b = mk(2, s); }
void on_message(void) {
  if (m_in.type == 1) { a->next->v = m_in.arg[0]; }
  m_out.type = 5;
  m_out.arg[0] = b->next->v;
  send(m_in.source);
}
int z;
----
struct cell { int key; int hits; struct cell *next; };
struct cell *heads[64];
int total;
void init(void) { }
void on_message(void) {
  int k = m_in.arg[0];
  struct cell *c = heads[k % 64];
  while (c != 0 && c->key != k) { c = c->next; }
  if (c == 0) {
    c = malloc(sizeof(struct cell));
    if (c == 0) { m_out.type = 2; send(m_in.source); return; }
    c->key = k;
    c->next = heads[k % 64];
    heads[k % 64] = c;
    total = total + 1;
  }
  c->hits = c->hits + 1;
  m_out.type = 1;
  m_out.arg[0] = c->hits;
  m_out.arg[1] = total;
  send(m_in.source);
}
----
struct cell { struct cell *next; long long hits; int key; };
struct cell *heads[64];
int total;
void init(void) { }
void on_message(void) {
  int k = m_in.arg[0];
  struct cell *c = heads[k % 64];
  while (c != 0 && c->key != k) { c = c->next; }
  if (c == 0) {
    c = malloc(sizeof(struct cell));
    if (c == 0) { m_out.type = 2; send(m_in.source); return; }
    c->key = k;
    c->next = heads[k % 64];
    heads[k % 64] = c;
    total = total + 1;
  }
  c->hits = c->hits + 1;
  m_out.type = 1;
  m_out.arg[0] = c->hits;
  m_out.arg[1] = total;
  send(m_in.source);
}
"##;

#[test]
fn servers_with_pointers_are_accepted(rt: HostRuntime) -> Result<(), Fail> {
    assert_eq!(rt; refused(rt.alloc(), SERVERS)?.as_str(), "");
    Ok(())
}
