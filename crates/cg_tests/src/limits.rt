// Which functions are too long. The weights were counted by hand, from the rules: one for each statement in the body and each
// assignment of a `for`; one for each variable, number, character, `sizeof` and operator, where casts, `?:`, `[ ]`, `.` and `->`
// are operators; one for each function's name that is a value; one for each call. The body's own block, parentheses and
// conversions that the text doesn't write add nothing.

use crate::driver::program_of;
use cg_program::compiler::compile;
use cg_program::error::CompileError;
use cg_stmt::is_too_long;
use sqlite_items::Items;
use src_tree::program::Function;
use src_tree::stmt::TypedStmt;
use std::alloc::{AllocError, Global};
use std::test::Fail;

/// The greatest weight that is compiled.
const GREATEST: u32 = 16384;

/// What the bodies name.
const NAMES: &str = r##"struct s { int x; };
int n;
char c;
long long w;
int *p;
int a[4];
struct s t;
struct s *q;
void (*f)(void);
int g(int i) { return i; }
void h(void) { }
void init(void) { }
void on_message(void) { }
"##;

/// Puts a function with a body, and so many statements `;` behind it.
fn put_function(
    text: &mut String,
    head: &str,
    body: &str,
    statements: u32,
) -> Result<(), AllocError> {
    text.push_str(head)?;
    text.push_str("{ ")?;
    text.push_str(body)?;
    for _ in 0..statements {
        text.push_str(";")?;
    }
    text.push_str(" }\n")?;
    Ok(())
}

/// The number of the first function of a text that is too long; none where there is no such one.
fn first_too_long(alloc: Global, text: &str) -> Result<Option<u32>, Fail> {
    let program = program_of(alloc, text)?;
    match compile(alloc, &program, Items::new(alloc)) {
        Ok(_) => Ok(None),
        Err(CompileError::TooLong { function }) => Ok(Some(function)),
        Err(CompileError::Memory) => Err("out of memory".into()),
    }
}

/// The first function that is too long of a server whose `init` and `on_message` have so many statements.
fn with_statements(alloc: Global, init: u32, on_message: u32) -> Result<Option<u32>, Fail> {
    let mut text = String::new(alloc);
    put_function(&mut text, "void init(void) ", "", init)?;
    put_function(&mut text, "void on_message(void) ", "", on_message)?;
    first_too_long(alloc, text.as_str())
}

#[test]
fn the_greatest_weight_is_compiled(rt: HostRuntime) -> Result<(), Fail> {
    let alloc = rt.alloc();
    assert!(rt; with_statements(alloc, GREATEST, GREATEST)? == None);
    assert!(rt; with_statements(alloc, 0, GREATEST + 1)? == Some(1));
    assert!(rt; with_statements(alloc, GREATEST + 1, GREATEST + 1)? == Some(0));
    Ok(())
}

/// The function of this body in a program with `NAMES`.
fn function_of(alloc: Global, body: &str) -> Result<Function, Fail> {
    let mut text = String::from_str(alloc, NAMES)?;
    put_function(&mut text, "void last(void) ", body, 0)?;
    let mut program = program_of(alloc, text.as_str())?;
    match program.functions.pop() {
        Some(function) => Ok(function),
        None => Err("there is no function".into()),
    }
}

/// Whether a body with statements `;` behind it to the greatest weight isn't too long, and with one `;` more is.
fn has_weight(alloc: Global, body: &str, weight: u32) -> Result<bool, Fail> {
    let mut function = function_of(alloc, body)?;
    for _ in weight..GREATEST {
        function.body.push(TypedStmt::Empty)?;
    }
    if is_too_long(&function) {
        return Ok(false);
    }
    function.body.push(TypedStmt::Empty)?;
    Ok(is_too_long(&function))
}

const WEIGHTS: [(&str, u32); 34] = [
    (";", 1),
    ("{ ; }", 2),
    ("{ }", 1),
    ("n = 0;", 3),
    ("n = -1;", 4),
    ("n = 'a';", 3),
    ("n = (n);", 3),
    ("c = 300;", 3),
    ("c = (char)300;", 4),
    ("w = n;", 3),
    ("w = (long long)n;", 4),
    ("n = c + w;", 5),
    ("n = n && c || 1;", 7),
    ("n = c ? 1 : 2;", 6),
    ("n = sizeof(int);", 3),
    ("n = a[1];", 5),
    ("n = *p;", 4),
    ("p = a;", 3),
    ("p = &a[1];", 6),
    ("p = p + 1;", 5),
    ("t.x = q->x;", 5),
    ("(*q).x = n;", 5),
    ("f = h;", 3),
    ("f();", 3),
    ("h();", 2),
    ("n = g(n);", 4),
    ("p = malloc(sizeof(int));", 4),
    ("p = calloc(4, sizeof(int));", 5),
    ("send(m_in.source);", 4),
    ("int i; i = n;", 4),
    ("int i = 'a';", 2),
    ("for (n = 0; n < 3; n = n + 1) ;", 13),
    ("while (n) { break; }", 4),
    ("if (!n) ; else return;", 5),
];

#[test]
fn bodies_weigh_so(rt: HostRuntime) -> Result<(), Fail> {
    let alloc = rt.alloc();
    for (body, weight) in WEIGHTS {
        assert!(rt; has_weight(alloc, body, weight)?, "{body}");
    }
    Ok(())
}
