// Rules on statements and expressions: lines `DECL CODE TEXT`, where a `+` puts both handlers behind the text.

use crate::checks::verdicts::differing;
use std::test::Fail;

const PLACES: &str = r##"# An identifier is declared earlier; a local up to the end of its function.
1 11 void f(void) { n = 1; }
1 11 void f(void) { n = 1; } int n;
1 11 void f(void) { int x = y; }
1 11 void f(void) { int x = x; }
1 11 int f(int a) { return b; }
1 11 void f(void) { if (zz) { } }
1 11 void f(void) { g(); }
1 11 void f(void) { g(); } void g(void) { }
1 11 void f(void) { send(zz); }
1 11 void f(void *p) { p = calloc(zz, sizeof(int)); }
1 11 void f(void) { x = 1; { int x; } }
1 11 void f(void) { if (1) x = 1; else { int x; } }
1 11 void f(void) { int (*g)(void) = h; } int h(void) { return 0; }
1 11 void f(void) { message = m_in; }
2 11 struct s { int x; }; void f(void) { int y = x; }
2 11 void f(int a) { } void g(void) { a = 1; }
0 0 +int n; void g(void); void f(void) { n = 1; g(); f(); } void g(void) { f(); }
0 0 +void f(void) { { int x; } x = 1; }
0 0 +void f(void) { if (1) { int x; } else x = 1; while (x) int y; y = x; }
# The left side of `=` is a place and no array.
1 12 void f(void) { 1 = 2; }
1 12 void f(int a) { -a = 1; }
1 12 void f(int a) { (char)a = 1; }
1 12 void f(int a) { (a + 1) = 1; }
1 12 void f(int a) { (a ? a : a) = 1; }
1 12 void f(int a) { sizeof(int) = a; }
1 12 void f(int a) { for (1 = a; ; ) { } }
1 12 void f(int a) { for (; ; -a = 1) { } }
1 12 void f(void) { f = 0; }
1 12 void f(void) { send = 1; }
2 12 int a[2]; void f(void) { a = 0; }
2 12 int a[2]; void f(int *p) { a = p; }
3 12 struct s { int a[2]; }; struct s g; void f(void) { g.a = 0; }
0 0 +int n; int a[2]; void f(int *p, int m) { n = 1; (m) = 2; *p = 3; p[1] = 4; *a = 5; a[1] = 6; *&n = 7; *(p + 1) = 8; }
0 0 +struct s { int x; }; struct s g; void f(struct s *p) { g.x = 1; p->x = 2; (*p).x = 3; *p = g; p[1].x = 4; }
# So is the operand of `&`.
1 12 void f(int *p) { p = &1; }
1 12 void f(int a) { int *p = &(a + 1); }
1 12 void f(void) { void (*g)(void) = &f; }
1 12 void f(void) { void *p = &send; }
2 12 int a[2]; void f(void) { int *p = &a; }
2 12 int n; void f(void) { int **p = & &n; }
2 12 struct s { int x; }; void f(struct s *p) { int *q = &(*p + 1); }
0 0 +int n; int a[2]; void f(int *p) { p = &n; p = &(n); p = &a[2]; p = &(a[2]); p = &*p; p = &p[1]; p = &*a; }
0 0 +struct s { int x; int a[2]; }; struct s g; void f(struct s *p) { int *q = &g.x; q = &p->x; q = &p->a[2]; p = &g; p = &*p; }
# Also where no declaration writes the type of the address.
0 0 +void (*f)(void); void (*t[2])(void); void g(void) { if (&f != t) { } int n = &f - &t[1]; }
0 0 +struct s { int (*g)(char c); }; void f(struct s *p) { if (&p->g == 0) { } }
0 0 +int ********p; void ********q; struct message ********r; void f(void) { if (&p && &q && &r) { } }
# `&` on no local or parameter.
1 13 void f(int a) { int *p = &a; }
1 13 void f(void) { int a; int *p = &a; }
1 13 void f(void (*g)(void)) { int *p = &(g); }
1 13 void f(int *p) { int **q = &p; }
# `&` and decay on no place inside a union.
3 13 union u { int x; int a[2]; }; union u g; void f(void) { int *p = &g.x; }
3 13 union u { int x; int a[2]; }; union u g; void f(void) { int *p = g.a; }
3 13 union u { int x; int a[2]; }; union u g; void f(void) { int *p = &g.a[1]; }
3 13 union u { int x; int a[2]; }; union u g; void f(void) { int *p = g.a + 1; }
3 13 union u { int x; int a[2]; }; union u g; void f(void) { int n = *g.a; }
3 13 union u { int x; int a[2]; }; union u g; void f(void) { if (g.a) { } }
3 13 union u { int x; int a[2]; }; union u g; void f(void) { int n = g.a == 0; }
2 13 union u { int x; int a[2]; }; void f(union u *p) { int *q = &p->x; }
2 13 union u { int x; int a[2]; }; void f(union u *p) { int *q = p->a; }
4 13 struct s { int x; }; union u { struct s s; }; union u g; void f(void) { int *p = &g.s.x; }
4 13 union u { int x; }; struct t { union u v; }; struct t g; void f(void) { int *p = &g.v.x; }
2 13 union u { int *p; }; void f(union u *q) { int **r = &q->p; }
0 0 +union u { int x; int a[2]; }; union u g; void f(int n) { n = g.a[1] + g.x; g.a[0] = 2; g.x = n; union u *p = &g; }
0 0 +union u { int x; }; struct t { union u v; int y; }; struct t g; void f(union u *p) { p = &g.v; int *q = &g.y; }
0 0 +union u { int *p; struct message *m; }; union u g; void f(int *q) { q = &*g.p; q = &g.p[1]; q = g.p + 1; q = g.m->arg; }
# `.` on a struct or union, `->` on a pointer to one, with a known field.
2 14 int n; void f(void) { n.x = 1; }
2 14 int *p; void f(void) { p->x = 1; }
1 14 void f(void *p) { int n = p->x; }
3 14 struct s { int x; }; struct s g; void f(void) { g.y = 1; }
3 14 struct s { int x; }; struct s *p; void f(void) { p.x = 1; }
3 14 struct s { int x; }; struct s g; void f(void) { g->x = 1; }
3 14 struct s { int x; }; struct s a[2]; void f(void) { a.x = 1; }
2 14 struct s { int x; }; void f(struct s *p) { int n = p->y; }
2 14 struct s { int x; }; void f(struct s **p) { int n = p->x; }
2 14 union u { int x; }; void f(union u *p) { int n = p->s; }
1 14 void f(void) { m_in.nope = 1; }
1 14 int f(struct s *p) { return p->y; } struct s { int x; };
1 14 void f(void) { f.x = 1; }
0 0 +struct s { int x; }; struct s g; struct s a[2]; void f(struct s *p) { g.x = p->x; (*p).x = a[1].x; a->x = 2; (&g)->x = 3; }
0 0 +union u { int x; }; union u g; void f(union u *p) { g.x = p->x; m_out.arg[5] = m_in.source; }
0 0 +int f(struct s *p) { return p->x + p[1].x + (*p).x; } struct s { int x; };
# `*` and `[ ]` on an array or a pointer to an object type.
1 15 void f(int n) { n = *n; }
1 15 void f(int n) { *n = 1; }
1 15 void f(int n) { n = n[0]; }
1 15 void f(int *p) { int n = 1[p]; }
1 15 void f(void *p) { int n = *p; }
1 15 void f(void *p) { int n = p[0]; }
1 15 void f(void *p) { p = &*p; }
1 15 void f(void (*g)(void)) { int n = *g; }
1 15 void f(void (*g)(void)) { (*g)(); }
1 15 void f(void) { int n = *f; }
1 15 void f(void) { int n = *0; }
3 15 struct s { int x; }; struct s g; void f(void) { int n = *g; }
3 15 struct s { int x; }; struct s g; void f(void) { int n = g[0]; }
0 0 +int a[2]; int **q; void f(int *p, void **v) { int n = *a + a[1] + *p + p[1] + **q + q[0][1]; v[0] = *v; }"##;

const OPERATORS: &str = r##"# `* / %`, `& ^ |`, `<< >>`, `~`, unary `-`: integers.
1 16 void f(int *p) { int n = p * 2; }
1 16 void f(int *p) { int n = 2 * p; }
1 16 void f(int *p) { int n = p / 2; }
1 16 void f(int *p) { int n = 2 % p; }
1 16 void f(int *p) { int n = p & 1; }
1 16 void f(int *p) { int n = 1 ^ p; }
1 16 void f(void *p) { int n = p | 0; }
1 16 void f(int *p) { int n = p << 1; }
1 16 void f(int *p) { int n = 1 >> p; }
1 16 void f(int *p) { int n = ~p; }
1 16 void f(int *p) { int n = -p; }
1 16 void f(void (*g)(void)) { int n = -g; }
3 16 struct s { int x; }; struct s g; void f(void) { int n = g * 1; }
2 16 int a[2]; void f(void) { int n = ~a; }
0 0 +void f(char c, unsigned long long u) { int n = c * u / 3 % 2 & 1 ^ 2 | 3 << c >> u; n = ~c; n = -u; n = - -c; }
# `+`: integers, or a pointer and an integer; `-`: also two pointers of one type.
1 16 void f(int *p, int *q) { p = p + q; }
1 16 void f(int *p) { p = 1 - p; }
1 16 void f(int *p, char *q) { int n = p - q; }
1 16 void f(int *p, void *q) { int n = p - q; }
1 16 void f(void *p) { p = p + 1; }
1 16 void f(void *p) { p = 1 + p; }
1 16 void f(void *p) { p = p - 1; }
1 16 void f(void *p, void *q) { int n = p - q; }
1 16 void f(void (*g)(void)) { g = g + 1; }
1 16 void f(void (*g)(void)) { int n = g - g; }
2 16 struct s { int x; }; void f(struct s *p) { int n = *p + 1; }
3 16 struct s { int x; }; struct s g; void f(void) { int n = *(g + 1); }
0 0 +int a[2]; void f(int *p, char c) { p = p + c; p = c + p; p = p - c; p = a + 1; p = 1 + a; c = p - p; c = p - a; c = c - 1 + c; }
# An index is an integer.
1 16 void f(int *p, int *q) { int n = p[q]; }
2 16 int a[2]; void f(int *p) { a[p] = 1; }
3 16 struct s { int x; }; struct s g; void f(int *p) { int n = p[g]; }
0 0 +int a[2]; void f(int *p, char c, unsigned long long u) { p[c] = a[u] + p[-1] + a['\0']; }
# `< <= > >=`: integers, or two pointers of one type.
1 16 void f(int *p, char *q) { int n = p < q; }
1 16 void f(int *p, void *q) { int n = p <= q; }
1 16 void f(int *p) { int n = p > 0; }
1 16 void f(int *p) { int n = 0 >= p; }
1 16 void f(void (*g)(void)) { int n = g < g; }
1 16 void f(void (*g)(void)) { int n = g >= g; }
3 16 struct s { int x; }; struct s g; void f(void) { int n = g < g; }
0 0 +int a[2]; void f(int *p, void *v, int n) { n = p < p; n = a <= p; n = v > v; n = v >= v; n = n < 1u; n = 'a' >= 2ll; }
# `== !=`: also an object pointer and `void *`, two function pointers of one type, a pointer and the literal 0.
1 16 void f(int *p, char *q) { int n = p == q; }
1 16 void f(int *p) { int n = p == 1; }
1 16 void f(int *p) { int n = p != 0u; }
1 16 void f(int *p) { int n = '\0' == p; }
1 16 void f(int *p, int n) { n = n != p; }
1 16 void f(void (*g)(void), int (*h)(void)) { int n = g == h; }
1 16 void f(void (*g)(void), void *v) { int n = g == v; }
1 16 void f(void (*g)(void), int *p) { int n = p != g; }
3 16 struct s { int x; }; struct s g; void f(void) { int n = g == g; }
3 16 struct s { int x; }; struct s g; void f(void) { int n = g == 0; }
0 0 +int a[2]; void f(int *p, void *v, int n) { n = p == p; n = p == v; n = v != p; n = v == v; n = a == p; n = n == 1ull; }
0 0 +void f(int *p, void *v, void (*g)(int a), void (*h)(int b), int n) { n = g == h; n = g != 0; n = 0 == p; n = v == (0x0); }
# `! && ||`: scalars.
3 16 struct s { int x; }; struct s g; void f(void) { int n = !g; }
3 16 struct s { int x; }; struct s g; void f(void) { int n = g && 1; }
3 16 struct s { int x; }; struct s g; void f(void) { int n = 0 || g; }
0 0 +int a[2]; void f(int *p, void (*g)(void), long long n) { n = !p && g || n; n = !g; n = !n; n = !a || a; n = -!p; }
# `?:`: integers, two of one pointer type, or a pointer and the literal 0.
1 16 void f(int *p, void *v, int n) { v = n ? p : v; }
1 16 void f(int *p, char *q, int n) { p = n ? p : q; }
1 16 void f(int *p, int n) { p = n ? p : 1; }
1 16 void f(int *p, int n) { p = n ? 0u : p; }
1 16 void f(void (*g)(void), int (*h)(void), int n) { g = n ? g : h; }
3 16 struct s { int x; }; struct s g; void f(int n) { g = n ? g : g; }
0 0 +int a[2]; void f(int *p, void *v, int n) { p = n ? p : p; p = p ? p : 0; p = n ? 0 : a; v = v ? v : 0; n = n ? 'a' : 2ll; }
0 0 +void f(void (*g)(void), void (*h)(void), int n) { g = n ? g : 0; g = g ? g : h; n = n ? 1 : n ? 2 : 3; }"##;

const CONVERSIONS: &str = r##"# A right side or an initialiser converts.
1 17 void f(int *p, int n) { n = p; }
1 17 void f(int *p, int n) { p = n; }
1 17 void f(int *p) { p = 1; }
1 17 void f(int *p) { p = 0u; }
1 17 void f(int *p) { p = '\0'; }
1 17 void f(int *p, char *q) { p = q; }
1 17 void f(int **p, int *q) { q = p; }
1 17 void f(int **p, void **q) { q = p; }
1 17 void f(int *p) { int n = p; }
1 17 void f(int n) { int *p = n; }
1 17 void f(int *p, int n) { for (n = p; ; ) { } }
1 17 void f(void (*g)(void), void *v) { g = v; }
1 17 void f(void (*g)(void), void *v) { v = g; }
1 17 void f(void (*g)(void)) { g = f; }
1 17 void f(void) { int n = f; }
2 17 int h(void) { return 0; } void f(void (*g)(void)) { g = h; }
2 17 int a[2]; void f(char *p) { p = a; }
3 17 struct s { int x; }; struct s g; void f(int n) { n = g; }
3 17 struct s { int x; }; struct s g; void f(void) { g = 0; }
5 17 struct s { int x; }; struct t { int x; }; struct s g; struct t h; void f(void) { g = h; }
1 17 void f(int n) { n = malloc(sizeof(int)); }
1 17 void f(void (*g)(void)) { g = malloc(sizeof(int)); }
1 17 void f(int *p) { p = send(1); }
2 17 int g(void) { return 0; } void f(int *p) { p = g(); }
0 0 +int a[2]; void f(char c, long long n, int *p, void *v) { c = n; n = c; p = v; v = p; p = 0; v = (0); p = a; v = a; }
0 0 +void h(void) { } void f(void (*g)(void), void (*i)(void)) { g = h; g = 0; g = i; void (*j)(void) = (h); }
0 0 +struct s { int x; }; struct s g; struct s h; void f(struct s *p) { g = h; g = *p; *p = g; p[1] = p[0]; m_out = m_in; }
0 0 +union u { int x; }; struct t { union u v; }; struct t g; union u h; void f(void) { h = g.v; g.v = h; }
0 0 +int g(void) { return 0; } void f(char *p, char c) { p = malloc(sizeof(int)); c = g(); long long n = g(); c = send(n); }
# So does an argument.
2 17 void g(int *p) { } void f(void) { g(1); }
2 17 void g(int n) { } void f(int *p) { g(p); }
2 17 void g(int n, void *p) { } void f(void (*h)(void)) { g(1, h); }
1 17 void f(void (*g)(char *p), int *q) { g(q); }
1 17 void f(int *p) { send(p); }
1 17 void f(int n) { free(n); }
1 17 void f(void (*g)(void)) { free(g); }
1 17 void f(int *p) { panic(p); }
1 17 void f(int *p) { p = calloc(p, sizeof(int)); }
0 0 +void g(int *p, char c) { } void f(int *q, void *v) { g(0, 300); g(q, 'a'); g(v, 1ull); free(0); free(q); panic(1ll); }
0 0 +void g(void (*h)(int n)) { } void k(int n) { } void f(void (*h)(int n)) { g(k); g(h); g(0); }
# So does a value returned.
1 17 int f(int *p) { return p; }
1 17 int *f(int n) { return n; }
1 17 int *f(char *p) { return p; }
2 17 int g(int n) { return n; } int *f(void) { return g(1); }
1 17 int *f(void) { return send(1); }
1 17 int f(void) { return m_in; }
0 0 +int a[2]; int *f(void) { return a; } void *g(int *p) { return p; } char h(void) { return 300; } int *k(void) { return f(); }
# A condition is a scalar.
3 18 struct s { int x; }; struct s g; void f(void) { if (g) { } }
3 18 struct s { int x; }; struct s g; void f(void) { while (g) { } }
3 18 struct s { int x; }; struct s g; void f(void) { for (; g; ) { } }
3 18 struct s { int x; }; struct s g; void f(int n) { n = g ? 1 : 2; }
3 18 union u { int x; }; union u g; void f(void) { if (g) { } }
0 0 +int a[2]; void f(int *p, void (*g)(void)) { if (p) { } while (g) { } for (; 'a'; ) { } if (a) { } else { } for (; ; ) { } }"##;

const CALLS: &str =
    r##"# The callee is a function or of function pointer type, and the number of arguments is right.
1 19 void f(int n) { n(); }
1 19 void f(int *p) { p(); }
1 19 void f(void) { 1(); }
2 19 struct s { int x; }; void f(struct s *p) { p->x(); }
2 19 void (*t[2])(void); void f(void) { t(); }
2 19 void g(int a) { } void f(void) { g(); }
2 19 void g(void) { } void f(void) { g(1); }
2 19 void g(int a, int b) { } void f(void) { g(1); }
1 19 void f(void (*g)(int a)) { g(); }
1 19 int f(int a) { return f(); }
1 19 void f(void) { send(); }
1 19 void f(void) { send(1, 2); }
1 19 void f(void) { free(); }
1 19 void f(void) { panic(1, 2); }
1 19 void f(int *p) { p = malloc(); }
1 19 void f(int *p) { p = calloc(1); }
1 19 void f(int *p) { p = malloc(1, sizeof(int)); }
0 0 +struct s { void (*g)(void); }; void (*t[2])(void); void f(struct s *p, int n) { p->g(); t[n](); (f)(p, n); (*p).g(); }
0 0 +int g(int a, int b) { return a; } void f(int (*h)(int a, int b)) { int n = g(1, 2); n = h(1, 2); h(n, n); (h)(n, n); }
# Built-ins stand where they may, and the size to allocate is a `sizeof` form.
1 20 void f(int *p) { p = malloc(4); }
1 20 void f(int *p, int n) { p = malloc(n); }
1 20 void f(int *p) { p = malloc(sizeof(int) * 2); }
1 20 void f(int *p) { p = malloc((unsigned)sizeof(int)); }
1 20 void f(int *p) { p = calloc(2, 4); }
1 20 void f(int *p) { p = calloc(sizeof(int), 2); }
1 20 void f(void) { malloc(sizeof(int)); }
1 20 void f(void) { calloc(1, sizeof(int)); }
1 20 void *f(void) { return malloc(sizeof(int)); }
1 20 void *f(void) { return calloc(1, sizeof(int)); }
1 20 void f(int n) { n = free(0); }
1 20 void f(int n) { n = panic(1); }
1 20 void f(void) { int n = free(0); }
1 20 int f(void) { return panic(1); }
1 20 void f(int n) { n = send; }
1 20 void f(void (*g)(void)) { g = malloc; }
1 20 void f(int n) { n = send + 1; }
1 20 void f(void) { if (send) { } }
2 20 void g(int n) { } void f(void) { g(send); }
0 0 +struct s { int x; }; void f(struct s *p) { p = malloc(sizeof(struct s)); p = calloc(2, sizeof(struct s)); free(p); }
0 0 +void f(int *p, int n) { p = malloc((sizeof(int))); void *q = malloc(sizeof(char *)); char *r = calloc(n, sizeof(char)); }
0 0 +int f(int n) { n = send(1); send(2); int m = send(3); panic(m); return send(4); }
# `break` and `continue` in a loop.
1 21 void f(void) { break; }
1 21 void f(void) { continue; }
1 21 void f(void) { if (1) { break; } else { } }
1 21 void f(void) { while (1) { } break; }
1 21 void f(void) { for (; ; ) { } continue; }
0 0 +void f(void) { while (1) { if (1) break; else { continue; } } for (; ; ) { while (1) break; continue; } }
# A value is returned exactly where the function has a result, and no void call is a right side.
1 22 void f(void) { return 1; }
1 22 void f(int *p) { return p; }
1 22 int f(void) { return; }
1 22 int *f(int n) { if (n) { return; } return 0; }
2 22 void g(void) { } void f(int n) { n = g(); }
2 22 void g(void) { } void f(void) { int n = g(); }
2 22 void g(void) { } int f(void) { return g(); }
2 22 void g(void) { } void f(void) { return g(); }
2 22 int g(void) { return 1; } void f(void) { return g(); }
1 22 void f(void (*g)(void), int n) { n = g(); }
0 0 +void f(void) { return; } int g(void) { return 1; } int h(void) { } int k(int n) { f(); g(); n = g(); return h(); }
# A struct or union as a right side lies outside unions.
5 23 struct s { int x; }; union u { struct s a; int b; }; union u g; struct s h; void f(void) { h = g.a; }
4 23 struct s { int x; }; union u { struct s a; }; struct s h; void f(union u *p) { h = p->a; }
4 23 struct s { int x; }; union u { struct s a[2]; }; struct s h; void f(union u *p) { h = p->a[1]; }
4 23 union u { int x; }; union v { union u a; }; union u h; void f(union v *p) { h = p->a; }
0 0 +struct s { int x; }; union u { struct s a; struct s *p; }; union u g; struct s h; void f(void) { g.a = h; h = *g.p; }
# Casts go among integer types, and between `void *` and another object pointer.
1 24 void f(int *p, char *q) { p = (int *)q; }
1 24 void f(int *p, int n) { n = (int)p; }
1 24 void f(int *p, int n) { p = (int *)n; }
1 24 void f(int *p) { p = (int *)0; }
1 24 void f(void *v) { v = (void *)0; }
1 24 void f(void *v) { v = (void *)v; }
1 24 void f(int *p) { p = (int *)p; }
1 24 void f(int **p, int *q) { q = (int *)p; }
1 24 void f(void (*g)(void), void *v) { v = (void *)g; }
1 24 void f(void *v) { v = (void *)f; }
2 24 int a[2]; void f(int *p) { p = (int *)a; }
3 24 struct s { int x; }; struct s g; void f(void) { int n = (int)g; }
3 24 struct s { int x; }; struct s g; void f(void) { g = (struct s)g; }
0 0 +void f(char c, long long n) { int m = (char)n + (unsigned long long)c + (unsigned)3 + (short)c + (int)m_in.type; }
0 0 +int x; int a[2]; void f(int *p, void *v, char *c) { v = (void *)p; p = (int *)v; v = (void *)a; c = (char *)(void *)&x + 1; }
0 0 +struct s { int x; }; void f(struct s *p, void *v, void **w) { p = (struct s *)v; v = (void *)p; w = (void **)v; v = (void *)w; }"##;

#[test]
fn places_are_judged(rt: HostRuntime) -> Result<(), Fail> {
    assert_eq!(rt; differing(rt.alloc(), PLACES)?.as_str(), "");
    Ok(())
}

#[test]
fn operators_are_judged(rt: HostRuntime) -> Result<(), Fail> {
    assert_eq!(rt; differing(rt.alloc(), OPERATORS)?.as_str(), "");
    Ok(())
}

#[test]
fn conversions_are_judged(rt: HostRuntime) -> Result<(), Fail> {
    assert_eq!(rt; differing(rt.alloc(), CONVERSIONS)?.as_str(), "");
    Ok(())
}

#[test]
fn calls_and_casts_are_judged(rt: HostRuntime) -> Result<(), Fail> {
    assert_eq!(rt; differing(rt.alloc(), CALLS)?.as_str(), "");
    Ok(())
}
