// Texts that are programs and texts that are not, by hand.

use c_lex::lex;
use c_parse::{ParseError, parse, parse_expr};
use std::alloc::Global;
use std::test::Fail;

fn shown(alloc: Global, error: ParseError) -> Result<String, Fail> {
    Ok(match error {
        ParseError::Syntax { decl } => format!(in alloc; "syntax {decl}")?,
        ParseError::TooDeep { decl } => format!(in alloc; "deep {decl}")?,
        ParseError::Memory => format!(in alloc; "memory")?,
    })
}

fn answer(alloc: Global, text: &str) -> Result<String, Fail> {
    let tokens = lex(alloc, text.as_bytes())?;
    match parse(alloc, tokens.as_slice()) {
        Ok(program) => {
            let count = program.len();
            Ok(format!(in alloc; "{count}")?)
        }
        Err(error) => shown(alloc, error),
    }
}

fn answer_expr(alloc: Global, text: &str) -> Result<String, Fail> {
    let tokens = lex(alloc, text.as_bytes())?;
    match parse_expr(alloc, tokens.as_slice()) {
        Ok(_) => Ok(format!(in alloc; "ok")?),
        Err(error) => shown(alloc, error),
    }
}

/// `before`, so often `part`, and `after`.
fn repeated(
    alloc: Global,
    before: &str,
    count: usize,
    part: &str,
    after: &str,
) -> Result<String, Fail> {
    let mut text = String::new(alloc);
    text.push_str(before)?;
    for _ in 0..count {
        text.push_str(part)?;
    }
    text.push_str(after)?;
    Ok(text)
}

const PROGRAMS: [(&str, &str); 44] = [
    ("", "0"),
    ("int n; void init(void) {", "syntax 2"),
    ("int n; int m", "syntax 2"),
    ("int", "syntax 1"),
    ("const int n;", "syntax 1"),
    ("int n, m;", "syntax 1"),
    ("struct s { int a; struct s *b; char c[4]; };", "1"),
    (
        "union u { int (*f)(void); long long (*g[2])(int a, struct s *b); };",
        "1",
    ),
    ("struct s { };", "1"),
    ("struct s { int a; }", "syntax 1"),
    ("struct s { int a };", "syntax 1"),
    ("struct s *p; struct s q; struct s r[2];", "3"),
    (
        "unsigned a; unsigned int b; unsigned char c; unsigned short d; unsigned long long e;",
        "5",
    ),
    ("void *a; char b; short c; int d; long long e;", "5"),
    ("long a;", "syntax 1"),
    ("unsigned long a;", "syntax 1"),
    ("unsigned unsigned a;", "syntax 1"),
    ("int n[3] = { 1, { 2 }, \"x\", }; int m[1] = { 'c' };", "2"),
    ("int n[1] = { };", "syntax 1"),
    ("int n[1] = { , };", "syntax 1"),
    ("int n[1] = { 1,, };", "syntax 1"),
    ("int n[1 + 1];", "syntax 1"),
    (
        "char t[4] = \"abc\"; int *p = &n; int (*f)(void) = g; int (*h[2])(void) = { g, 0 };",
        "4",
    ),
    (
        "int f(void); int f(int a, int (*g)(void)) { return a; }",
        "2",
    ),
    ("int f();", "syntax 1"),
    ("int f(void, int a);", "syntax 1"),
    ("int f(void *p);", "1"),
    ("int f(int);", "syntax 1"),
    ("void f(void) { a * b; }", "syntax 1"),
    (
        "void f(void) { int a; struct s *b = &c; int (*d)(int x) = e; unsigned g = h(1, 2); }",
        "1",
    ),
    (
        "void f(void) { a = 1; *p = b; q->r[2].s = g(); -a = 3; (int)a = 4; }",
        "1",
    ),
    ("void f(void) { a + b = 1; }", "syntax 1"),
    ("void f(void) { g(); (g)(1); h[2](a, b); p->q(); }", "1"),
    ("void f(void) { -g(1); }", "syntax 1"),
    ("void f(void) { a = -g(1); }", "syntax 1"),
    ("void f(void) { a = g(1) + 1; }", "syntax 1"),
    (
        "void f(void) { if (a) if (b) ; else ; else { } while (c) ; }",
        "1",
    ),
    ("void f(void) { if (a) ; else ; else ; }", "syntax 1"),
    (
        "void f(void) { for (;;) ; for (i = 0; i < 3; i = i + 1) g(); }",
        "1",
    ),
    ("void f(void) { for (int i = 0;;) ; }", "syntax 1"),
    ("void f(void) { for (g();;) ; }", "syntax 1"),
    (
        "void f(void) { break; continue; return; return a; return g(); }",
        "1",
    ),
    ("void f(void) { return }", "syntax 1"),
    ("void f(void) { a++; }", "syntax 1"),
];

const EXPRESSIONS: [(&str, &str); 22] = [
    ("1 +", "syntax 1"),
    ("", "syntax 1"),
    ("1 2", "syntax 1"),
    ("zz", "ok"),
    ("'c'", "ok"),
    ("\"s\"", "syntax 1"),
    ("a || b && c | d ^ e & f == g < h << i + j * k", "ok"),
    ("a / b % c - d >> e <= f > g >= h != i", "ok"),
    ("a ? b : c ? d : e", "ok"),
    ("a ? b", "syntax 1"),
    ("a = b", "syntax 1"),
    ("f(1)", "syntax 1"),
    ("-~!*&a", "ok"),
    ("(int)x", "ok"),
    ("(struct s *)(x)", "ok"),
    ("(x)[1].y->z", "ok"),
    ("()", "syntax 1"),
    ("(int x)", "syntax 1"),
    ("sizeof(int *)", "ok"),
    ("sizeof x", "syntax 1"),
    ("a.1", "syntax 1"),
    ("a[1", "syntax 1"),
];

// What is repeated, how often, and the answer.
const REPEATED: [(&str, usize, &str, &str, &str); 22] = [
    ("int n = 1", 64, " + 1", ";", "1"),
    ("int n = 1", 65, " + 1", ";", "deep 1"),
    ("int n = 1", 64, " + 1", " + ;", "deep 1"),
    ("int n = 1", 64, " + 1", " * 1;", "1"),
    ("int n = a", 64, ".b", ";", "1"),
    ("int n = a", 65, ".b", ";", "deep 1"),
    ("int n = a", 64, ".b", ". 5;", "deep 1"),
    ("int n = a", 64, "[0]", ";", "1"),
    ("int n = a", 64, "->b", "[0];", "deep 1"),
    ("int ", 8, "*", "n;", "1"),
    ("int ", 9, "*", "n;", "deep 1"),
    ("int ", 9, "*", "", "deep 1"),
    ("int m; int n = ", 61, "~", "1;", "2"),
    ("int m; int n = ", 62, "~", "1;", "deep 2"),
    ("int n = ", 31, "(", ";", "syntax 1"),
    ("int n = ", 32, "(", ";", "deep 1"),
    ("int n = ", 61, "{", "1", "syntax 1"),
    ("int n = ", 62, "{", "1", "deep 1"),
    ("void f(void) {", 31, "{", ";", "syntax 1"),
    ("void f(void) {", 32, "{", ";", "deep 1"),
    ("void f(void) {", 61, "if (a) ", ";}", "1"),
    ("void f(void) {", 62, "while (0) ", ";}", "deep 1"),
];

#[test]
fn programs_are_read(rt: HostRuntime) -> Result<(), Fail> {
    let alloc = rt.alloc();
    for (text, wanted) in PROGRAMS {
        let found = answer(alloc, text)?;
        assert_eq!(rt; found.as_str(), wanted, "{text}");
    }
    Ok(())
}

#[test]
fn expressions_are_read(rt: HostRuntime) -> Result<(), Fail> {
    let alloc = rt.alloc();
    for (text, wanted) in EXPRESSIONS {
        let found = answer_expr(alloc, text)?;
        assert_eq!(rt; found.as_str(), wanted, "{text}");
    }
    Ok(())
}

#[test]
fn limits_are_kept(rt: HostRuntime) -> Result<(), Fail> {
    let alloc = rt.alloc();
    for (before, count, part, after, wanted) in REPEATED {
        let text = repeated(alloc, before, count, part, after)?;
        let found = answer(alloc, text.as_str())?;
        assert_eq!(rt; found.as_str(), wanted, "{before} {count} {part} {after}");
    }
    Ok(())
}

#[test]
fn thirty_pairs_of_parentheses_are_read_and_no_more(rt: HostRuntime) -> Result<(), Fail> {
    let alloc = rt.alloc();
    for (pairs, wanted) in [(30usize, "1"), (31, "deep 1")] {
        let opened = repeated(alloc, "int n = ", pairs, "(", "1")?;
        let text = repeated(alloc, opened.as_str(), pairs, ")", ";")?;
        let found = answer(alloc, text.as_str())?;
        assert_eq!(rt; found.as_str(), wanted);
    }
    Ok(())
}
