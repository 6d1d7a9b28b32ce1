// Rules on declarations: lines `DECL CODE TEXT`, where a `+` puts both handlers behind the text.

use crate::checks::verdicts::differing;
use std::test::Fail;

const NAMES: &str = r##"# A tag, or the name of a global or function, is taken.
2 1 int n; int n;
2 1 int n; char n[2];
2 1 struct s { int x; }; struct s { int x; };
2 1 struct s { int x; }; union s { int x; };
2 1 struct s { int x; }; struct s { char y[3]; };
2 1 union s { int x; }; struct s { int x; };
1 1 struct message { int x; };
1 1 union message { int x; };
0 0 +struct s { int s; }; int s;
2 1 int f; void f(void) { }
2 1 int f; void f(void);
2 1 void f(void) { } int f;
2 1 void f(void) { } void f(void) { }
2 1 +int init;
2 1 +void init(void) { }
3 1 +void on_message(void) { }
# A prototype may be followed by one definition.
0 0 +void f(void); void f(void) { }
0 0 +int f(int a); int f(int b) { return b; }
0 0 void init(void); void on_message(void); void on_message(void) { } void init(void) { }
2 1 void f(void); void f(void); void f(void) { }
3 1 void f(void); void f(void) { } void f(void) { }
2 1 void f(void) { } void f(void);
2 1 void f(void); void (*f)(void); void f(void) { }
# What is declared before each text, tags and other names apart.
1 1 int m_in;
1 1 struct message m_out;
1 1 int send;
1 1 int send(int n) { return n; }
1 1 void *malloc(int n) { return 0; }
1 1 void (*calloc)(void);
1 1 void free(void *p);
1 1 void panic(int n) { }
0 0 +struct send { int x; };
0 0 +struct m_in { int x; };
0 0 +union free { int x; };
0 0 +int message;
0 0 +void message(void) { }
# A field.
1 2 struct e { };
1 2 union e { };
1 2 struct e { int x; int x; };
1 2 struct e { int x; char y; int (*x)(void); };
1 2 union e { int x; char x[2]; };
1 2 struct e { int x; int (*x)(char a); };
0 0 +struct e { int e; int x; }; struct f { int x; }; union u { int x; };"##;

const TYPES: &str =
    r##"# A tag by value is declared earlier as that kind, a tag under `*` somewhere.
1 3 struct s x;
1 3 struct s x; struct s { int a; };
1 3 struct s { struct s x; };
1 3 struct s { struct t x; }; struct t { int a; };
1 3 struct s { struct t x[2]; }; struct t { int a; };
2 3 struct s { int a; }; union s x;
2 3 union s { int a; }; struct s x;
1 3 struct s *p;
1 3 struct s *p[2];
1 3 union s *p; struct s { int a; };
1 3 union message *p;
1 3 int f(struct s *p);
1 3 struct s *f(void) { return 0; }
1 3 struct s f(void) { }
1 3 void (*f)(struct s *p);
1 3 void f(void) { struct s *p; }
1 3 void f(struct s a) { } struct s { int a; };
1 3 int n = sizeof(struct s); struct s { int a; };
1 3 void f(void) { int n = sizeof(struct s); } struct s { int a; };
1 3 void f(void) { int n = sizeof(struct s *); }
1 3 void f(void *p) { p = malloc(sizeof(struct s)); } struct s { int a; };
1 3 void f(void *p) { p = (struct s *)p; }
0 0 +struct s *p; struct s **q; struct s { struct s *next; }; struct s x; struct s y[2];
0 0 +union s *p; union s { union s *next; int n; }; union s x;
0 0 +struct message x; struct message *p; struct t { struct message m; };
0 0 +struct s *f(struct s *p) { struct s *q = p; return q; } struct s { int a; };
0 0 +void f(void) { int n = sizeof(struct s *); } struct s { int a; };
0 0 +void (*f)(struct s *p); struct s { int a; }; int n = sizeof(struct s);
# `void` is a result, stands under `*`, or is the whole of parameters.
1 4 void x;
1 4 void x[2];
1 4 struct s { void x; };
1 4 union s { int a; void x; };
1 4 struct s { char y[3]; void x; };
1 4 void f(void a) { }
1 4 void f(int a, void b) { }
1 4 void f(void) { void x; }
1 4 void (*f)(void a);
1 4 void (*f)(int a, void b);
1 4 void f(void) { void (*g)(void a); }
1 4 int n = sizeof(void);
1 4 int n = (void)0;
1 4 void f(void) { int n = sizeof(void); }
1 4 void f(int a) { int n = (void)a; }
1 4 void f(void *p) { p = malloc(sizeof(void)); }
0 0 +void *p; void **q; void (*g)(void); void *f(void *p2) { int n = sizeof(void *); return p2; }
# An array has 1 to 1,048,576 elements.
1 5 int a[0];
1 5 int a[0u];
1 5 char a[1048577];
1 5 char a[4294967297];
1 5 char a[18446744073709551615u];
1 5 struct s { int a[0]; };
1 5 struct s { char a[1048577]; };
1 5 void (*f[0])(void);
0 0 +int a[1]; int b[0x10]; int c[3ull]; void (*f[1])(void); struct s { char a[1048576]; };
# A type has at most 1,048,576 bytes.
1 6 int a[262145];
1 6 int *a[300000];
1 6 int a[1048576];
1 6 struct s { char a[1048576]; char b; };
1 6 struct s { int a; char b[1048572]; char c; };
1 6 struct s { char a[1048569]; long long b; };
1 6 union s { char a[1048576]; };
1 6 union s { char a[1048573]; };
2 6 struct s { char a[1024]; }; struct s a[1025];
2 6 struct s { char a[1048576]; }; struct t { struct s a[2]; };
0 0 +struct s { int a; char b[1048572]; }; union u { char a[1048572]; }; int *a[200000];
# So have all globals; 64 of them are those of `m_in` and `m_out`.
1 6 char a[1048513];
2 6 char a[1000000]; char b[48513];
2 6 int a[262128]; char b;
0 0 +char a[1000000]; char b[48512];
0 0 +int a[262128];
# A parameter, a local, and a result other than `void`, is a scalar.
2 7 struct s { int a; }; void f(struct s x) { }
2 7 struct s { int a; }; struct s f(void) { }
2 7 union u { int a; }; void f(union u x);
2 7 union u { int a; }; union u f(void);
2 7 struct s { int a; }; void f(void) { struct s x; }
2 7 union u { int a; }; void f(void) { if (1) { union u x; } }
2 7 struct s { int a; }; void (*f)(struct s x);
2 7 struct s { int a; }; struct s (*f[2])(void);
2 7 struct s { int a; }; struct t { struct s (*f)(void); };
2 7 struct s { int a; }; void f(int (*g)(struct s x)) { }
2 7 struct s { int a; }; void f(void) { int (*g)(struct s x); }
1 7 void f(struct message m) { }
0 0 +struct s { int a; }; struct s *f(char a, void *p, int (*g)(int n), struct s *q) { struct s *y = q; return y; }"##;

const LOCALS: &str = r##"# Another parameter or local of the function, in whatever block.
1 8 void f(int a, int a) { }
1 8 void f(void (*a)(void), int a) { }
1 8 void f(int a) { int a; }
1 8 void f(void) { int a; char *a; }
1 8 void f(void) { { int a; } { int a; } }
1 8 void f(void) { { int a; } int a; }
1 8 void f(void) { if (1) int a; else int a; }
1 8 void f(void) { while (1) { int a; } int (*a)(void); }
0 0 +void f(int a, int b) { int c; { int d; } } void g(int a) { int b; int c; int d; }
# The function itself, a global or function declared earlier, a built-in.
1 8 void f(int f) { }
1 8 void f(void) { int f; }
2 8 int n; void f(int n) { }
2 8 int n; void f(void) { int n; }
2 8 void g(void) { } void f(int g) { }
2 8 void g(void) { } void f(void) { int g; }
2 8 void g(void); void f(int g) { } void g(void) { }
1 8 void f(int m_in) { }
1 8 void f(void) { int m_out; }
1 8 void f(int send) { }
1 8 void f(void) { int malloc; }
1 8 void f(int calloc) { }
1 8 void f(void) { int free; }
1 8 void f(int panic) { }
2 8 void init(void) { } void on_message(void) { int init; }
0 0 +void f(int n, int g) { } int n; void g(void) { }
0 0 +void f(void) { int n; int g; } int n; void g(void) { }
0 0 +void f(int init) { int on_message; }
0 0 +struct s { int a; }; void f(int s, int a) { int message; }
# A prototype's parameters too, but not those of a type.
1 8 void f(int a, int a); void f(int a, int b) { }
1 8 void f(int f); void f(int g) { }
2 8 int n; void f(int n); void f(int m) { }
1 8 void f(int free); void f(int g) { }
0 0 +void f(int a); void f(int b) { } void g(int a) { }
0 0 +int n; void (*f)(int n, int n, int f, int send);
0 0 +void f(void (*g)(int f, int g, int g)) { void (*h)(int f, int h); }"##;

const INTEGERS: &str =
    r##"# Numbers, characters, `sizeof`, integer casts and operators that don't trap.
0 0 +int a = 1; char b = 300; unsigned long long c = -1; int d = 'a' + sizeof(int) * 2; int e = sizeof(struct message);
0 0 +int a = ~0 & 0xff ^ 3 | 4; int b = -(7 / 2) % 2 - 1; int c = (char)200 < 0 ? 1 : 2; int d = !5 == 0 && 2 >= 1;
0 0 +int a = 1 || 1 / 0; int b = 0 && 1 % 0; int c = 1 ? 2 : 1 / 0; int d = 0 ? 1 << 32 : 1;
0 0 +int a = 1 << 31; long long b = 1ll << 63; int c = 1 >> 31; int d = (-9223372036854775807ll - 1) / -1;
1 9 int n = 1 / 0;
1 9 int n = 1 % 0;
1 9 int n = 1 / (2 - 2);
1 9 int n = 0 || 1 / 0;
1 9 int n = 1 && 1 / 0;
1 9 int n = 0 ? 2 : 1 / 0;
1 9 int n = 1 << 32;
1 9 int n = 1 << -1;
1 9 int n = 1 >> 32;
1 9 long long n = 1ll << 64;
1 9 int n = zz;
1 9 int n = n;
2 9 int m; int n = m;
2 9 int m; int n = 0 && m;
2 9 int m; int n = &m;
1 9 int n = m_in.type;
2 9 int f(void) { return 0; } int n = f;
1 9 int n = (int *)0;
1 9 int n = "a";
1 9 int n = { 1 };"##;

const POINTERS: &str = r##"# The literal 0.
0 0 +int *p = 0; int *q = (0); int *r = 0x0; void *s = 0; void **t = 0; int *u = ((0x00));
1 9 int *p = 0u;
1 9 int *p = 0ll;
1 9 int *p = '\0';
1 9 int *p = 1;
1 9 int *p = 1 - 1;
1 9 int *p = (int)0;
1 9 void *p = 0u;
1 9 int *p = { 0 };
1 9 char *p = "ab";
# The address of an earlier global whose type is exactly the target type.
0 0 +int n; int *p = &n; int *q = (&n); int *r = &(n); int **s = &p; struct message *m = &m_in;
0 0 +struct s { struct s *n; }; struct s g; struct s h = { &g }; struct s *p = &h;
2 9 char n; int *p = &n;
2 9 unsigned n; int *p = &n;
2 9 int n[2]; int *p = &n;
2 9 int n[2]; int *p = &n[0];
3 9 struct s { int x; }; struct s g; int *p = &g.x;
2 9 int n; void *p = &n;
2 9 int n; int *p = (int *)(void *)&n;
1 9 int *p = &n; int n;
1 9 int *p = &zz;
1 9 void *p = &p;
2 9 struct s { struct s *n; }; struct s g = { &g };
2 9 void f(void) { } int *p = &f;
# The name of an earlier global array of the target type.
0 0 +int n[2]; int *p = n; int *q = (n); void (*f[2])(void); struct message m[1]; struct message *r = m;
2 9 char n[2]; int *p = n;
2 9 int n; int *p = n;
2 9 int *n; int *p = n;
2 9 int n[2]; void *p = n;
2 9 int n[2]; int *p = n + 1;
1 9 int *p = n; int n[2];
3 9 struct s { int a[2]; }; struct s g; int *p = g.a;
# Function pointers take 0 or the name of a function of their type.
0 0 +void g(void) { } void (*f)(void) = g; void (*h)(void) = (g); void (*i)(void) = 0;
0 0 +void g(void); void (*f)(void) = g; void g(void) { }
0 0 +int g(int *p, char c) { return 0; } int (*f)(int *q, char d) = g;
1 9 void (*f)(void) = 1;
1 9 void (*f)(void) = 0u;
1 9 void (*f)(void) = g;
2 9 int g(void) { return 0; } void (*f)(void) = g;
2 9 void g(int a) { } void (*f)(char a) = g;
2 9 void g(void) { } void (*f)(void) = &g;
2 9 void (*g)(void); void (*f)(void) = g;
2 9 int n; void (*f)(void) = n;
1 9 int (*f)(int n) = send;
1 11 void (*f)(void) = g; void g(void) { }
1 11 void (*f)(void) = g; void g(void); void g(void) { }
1 9 void (*f)(void) = g; int g(void) { return 0; }"##;

const AGGREGATES: &str =
    r##"# A string fits a char or unsigned char array; the added zero may be left out.
0 0 +char a[3] = "abc"; char b[4] = "abc"; unsigned char c[3] = "abc"; char d[1] = ""; char e[3] = "\n\\\"";
1 9 char s[2] = "abc";
1 9 unsigned char s[1] = "\0\0";
1 9 short s[3] = "abc";
1 9 int s[3] = "abc";
1 9 char s = "a";
1 9 char s[2] = { "a" };
1 9 char s[2] = 'a';
# Braces have at most as many items as an array or a struct.
0 0 +char a[3] = { 'a', 2 }; int b[2] = { 1, 2, }; int c[3] = { 1 }; int x; int *d[2] = { &x, 0 };
0 0 +void g(void) { } void (*f[2])(void) = { g, 0 }; void (*h[2])(void) = { g };
0 0 +struct s { int x; char c[2]; }; struct s a = { 1, "ab" }; struct s b = { 1, { 2, 3 } }; struct s c = { 1 };
0 0 +struct s { int x; }; struct s a[2] = { { 1 }, { 2 } }; struct t { struct s s; int y; }; struct t b = { { 1 }, 2 };
1 9 int a[3] = { 1, 2, 3, 4 };
1 9 int a[3] = 1;
1 9 int a[3] = { { 1 } };
1 9 int a[3] = { 1, zz };
1 9 int a[3] = { 1, 2, 1 / 0 };
2 9 int n[2]; int a[2] = n;
2 9 struct s { int x; char c[2]; }; struct s g = { 1, 2 };
2 9 struct s { int x; }; struct s g = { 1, 2 };
2 9 struct s { int x; }; struct s g = 0;
2 9 struct s { int x; }; struct s g[2] = { 1, 2 };
2 9 struct s { int x; }; struct s g = { { 1 } };
3 9 struct s { int x; }; struct s g; struct s h = g;
2 9 struct s { char c; }; struct s g = "a";
2 9 void g(void) { } void (*f[1])(void) = { g, g };
2 11 int x; void (*f[2])(void) = { 0, g }; void g(void) { }
# A union takes none.
0 0 +union u { int x; }; union u g; struct s { int a; union u b; }; struct s h = { 1 };
2 9 union u { int x; }; union u g = { 1 };
2 9 union u { int x; }; union u g = 1;
2 9 union u { char x[2]; }; union u g = "a";
3 9 union u { int x; }; struct s { int a; union u b; }; struct s g = { 1, { 2 } };
3 9 union u { int *x; }; union u g; union u h[2] = { g };"##;

const FUNCTIONS: &str = r##"# A prototype has a definition later, and the first is of its type.
1 10 void f(void);
1 10 +void f(void);
1 10 void f(void); void g(void) { }
1 10 int f(void); void f(void) { }
1 10 int f(void); unsigned f(void) { return 0; }
1 10 void f(int a); void f(char a) { }
1 10 void f(int a); void f(int a, int b) { }
1 10 void f(int *p); void f(void *p) { }
1 10 void f(void); int f(void) { return 0; } void f(void) { }
1 10 void f(void); int f;
2 10 void f(void) { } void g(void);
0 0 +struct s { int x; }; int f(struct s *p, int (*g)(int a)); int f(struct s *q, int (*h)(int b)) { return q->x; }
0 0 +unsigned f(unsigned char a, int *p); int n; unsigned int f(unsigned char b, int *q) { return 1; }
# The handlers are defined with type `void (void)`.
1 25 /* no declaration */
2 25 int n;
2 25 void init(void) { }
2 25 void on_message(void) { }
3 25 int init(void) { } void on_message(void) { }
3 25 void init(int a) { } void on_message(void) { }
3 25 void init(void) { } void on_message(int a) { }
3 25 void init(void) { } int *on_message(void) { }
3 25 void init(void) { } int on_message;
3 25 void (*init)(void); void on_message(void) { }
4 25 void init(int a); void init(int a) { } void on_message(void) { }
0 0 void init(void) { } void on_message(void) { }
0 0 void on_message(void) { } int n; void init(void) { }"##;

const ORDER: &str = r##"# Of the rules that a declaration breaks the least code is named.
2 1 int n; int n[0];
2 1 int n; int n = zz;
2 1 void f(void) { } void f(int a, int a) { zz = 1; }
1 2 struct e { int x; int x[0]; };
1 3 struct e { int b[0]; struct s a; };
1 3 struct e { void c; struct s a; };
1 4 struct e { int b[0]; void c; };
1 4 void f(void x, void x);
1 5 char a[0] = "abc";
1 5 int a[1048577];
1 6 int a[262145] = { zz };
1 7 void f(struct message a, int a);
1 8 void f(int a) { int b = zz; int a; }
1 8 void f(int a, int a);
1 3 void f(void) { int x = x; int y = sizeof(struct s); }
1 11 void f(int *p) { int n = -p; n = zz; }
1 11 void f(void) { break; zz = 1; }
1 12 void f(int *p) { int n = -p; 1 = 2; }
1 16 void f(int *p) { break; int n = -p; return 1; }
1 21 void f(void) { return 1; break; }
# Of the declarations that break rules the first is named.
1 9 int n = zz; int n;
1 10 void f(void); int n; int n;
2 11 int n; void f(void) { zz = 1; } int n;
1 11 void f(void) { zz = 1; } struct e { };
2 25 void f(void) { }
1 21 void f(void) { break; }
1 3 struct s *p; struct message { int x; };"##;

#[test]
fn names_and_fields_are_judged(rt: HostRuntime) -> Result<(), Fail> {
    assert_eq!(rt; differing(rt.alloc(), NAMES)?.as_str(), "");
    Ok(())
}

#[test]
fn written_types_are_judged(rt: HostRuntime) -> Result<(), Fail> {
    assert_eq!(rt; differing(rt.alloc(), TYPES)?.as_str(), "");
    Ok(())
}

#[test]
fn names_of_locals_are_judged(rt: HostRuntime) -> Result<(), Fail> {
    assert_eq!(rt; differing(rt.alloc(), LOCALS)?.as_str(), "");
    Ok(())
}

#[test]
fn integer_initialisers_are_judged(rt: HostRuntime) -> Result<(), Fail> {
    assert_eq!(rt; differing(rt.alloc(), INTEGERS)?.as_str(), "");
    Ok(())
}

#[test]
fn pointer_initialisers_are_judged(rt: HostRuntime) -> Result<(), Fail> {
    assert_eq!(rt; differing(rt.alloc(), POINTERS)?.as_str(), "");
    Ok(())
}

#[test]
fn texts_and_braces_are_judged(rt: HostRuntime) -> Result<(), Fail> {
    assert_eq!(rt; differing(rt.alloc(), AGGREGATES)?.as_str(), "");
    Ok(())
}

#[test]
fn prototypes_and_handlers_are_judged(rt: HostRuntime) -> Result<(), Fail> {
    assert_eq!(rt; differing(rt.alloc(), FUNCTIONS)?.as_str(), "");
    Ok(())
}

#[test]
fn the_first_declaration_and_its_least_code_are_named(rt: HostRuntime) -> Result<(), Fail> {
    assert_eq!(rt; differing(rt.alloc(), ORDER)?.as_str(), "");
    Ok(())
}
