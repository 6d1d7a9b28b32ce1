// Texts of filters in programs. What is expected of each comes from the rules of the language.

use c_check::check::check;
use c_lex::lex;
use c_parse::program::parse;
use lu_filter::{FilterError, read_filter};
use src_tree::expr::{BinaryOperator, ExprKind, PlaceKind, TypedExpr};
use src_tree::program::Program;
use std::alloc::{AllocError, Global};
use std::test::Fail;

/// A file server that counts the requests which wait for a disk.
const FILE_SERVER: &str = "int pending;
int who;
void init(void) { }
void on_message(void) {
  if (m_in.type == 9) { m_out.type = 19; send(m_in.source); return; }
  if (m_in.source == 2) {
    pending = pending - 1;
    m_out.type = 11;
    m_out.arg[0] = m_in.arg[0];
    send(who);
    return;
  }
  pending = pending + 1;
  who = m_in.source;
  m_out.type = m_in.type;
  m_out.arg[0] = m_in.arg[0];
  send(2);
}
";

/// Globals of many types.
const GLOBALS: &str = "struct node { int key; struct node *next; };
union cell { int row[2]; int key; };
int n;
char c;
unsigned long long wide;
union cell u;
struct node first;
struct node *head;
void init(void) { }
void on_message(void) { }
";

fn program(alloc: Global, text: &str) -> Result<Program, Fail> {
    let tokens = lex(alloc, text.as_bytes())?;
    let tree = parse(alloc, tokens.as_slice())?;
    Ok(check(alloc, tree.as_slice())?)
}

/// Whether the expression is the value of this global.
fn is_global(e: &TypedExpr, number: u32) -> bool {
    match &e.kind {
        ExprKind::Load(place) => match &place.get().kind {
            PlaceKind::Global(global) => *global == number,
            _ => false,
        },
        _ => false,
    }
}

fn is_number(e: &TypedExpr, wanted: i128) -> bool {
    match &e.kind {
        ExprKind::Number(number) => *number == wanted,
        _ => false,
    }
}

/// What is answered to the text of a filter, without the filter.
fn answer(alloc: Global, program: &Program, text: &str) -> Result<String, AllocError> {
    match read_filter(alloc, program, text) {
        Ok(_) => format!(in alloc; "ok"),
        Err(FilterError::BadByte { col }) => format!(in alloc; "byte {col}"),
        Err(FilterError::BadNumber { col }) => format!(in alloc; "number {col}"),
        Err(FilterError::Syntax) => format!(in alloc; "syntax"),
        Err(FilterError::TooDeep) => format!(in alloc; "deep"),
        Err(FilterError::Rule { code }) => format!(in alloc; "rule {code}"),
        Err(FilterError::NotInt) => format!(in alloc; "not an integer"),
        Err(FilterError::Memory) => format!(in alloc; "memory"),
    }
}

const ANSWERS: [(&str, &str); 24] = [
    ("1", "ok"),
    ("n == 0", "ok"),
    ("1 / n", "ok"),
    ("c", "ok"),
    ("wide", "ok"),
    ("head->next->key < u.key", "ok"),
    ("m_in.arg[2]", "ok"),
    ("/* quiet */ n // or not\n == 0", "ok"),
    ("&n", "not an integer"),
    ("head", "not an integer"),
    ("m_in.arg", "not an integer"),
    ("init", "not an integer"),
    ("u.row", "rule 13"),
    ("missing", "rule 11"),
    ("send", "rule 20"),
    ("head + first", "rule 16"),
    ("", "syntax"),
    ("n n", "syntax"),
    ("n == 0;", "syntax"),
    ("init()", "syntax"),
    ("n ==\n  @", "byte 3"),
    ("@ ==\n  n", "byte 1"),
    ("n ==\n\n 0q", "number 2"),
    ("n == /* quiet", "byte 6"),
];

#[test]
fn texts_of_filters_are_answered(rt: HostRuntime) -> Result<(), Fail> {
    let alloc = rt.alloc();
    let program = program(alloc, GLOBALS)?;
    for (text, wanted) in ANSWERS {
        let answer = answer(alloc, &program, text)?;
        assert!(rt; answer.as_str() == wanted, "{text}");
    }
    Ok(())
}

/// So many times the one text, the middle, and so many times the other.
fn around(
    alloc: Global,
    times: usize,
    before: &str,
    middle: &str,
    after: &str,
) -> Result<String, AllocError> {
    let mut text = String::new(alloc);
    for _ in 0..times {
        text.push_str(before)?;
    }
    text.push_str(middle)?;
    for _ in 0..times {
        text.push_str(after)?;
    }
    Ok(text)
}

const LIMITS: [(usize, &str, &str, &str, &str); 8] = [
    (31, "(", "n", ")", "ok"),
    (32, "(", "n", ")", "deep"),
    (64, "", "(n", " + 1", "syntax"),
    (64, "", "n", " + 1", "ok"),
    (65, "", "n", " + 1", "deep"),
    (64, "1 + ", "n", "", "ok"),
    (63, "", "head->next", "->next", "not an integer"),
    (64, "", "head->next", "->next", "deep"),
];

#[test]
fn limits_of_nesting_and_chains_are_kept(rt: HostRuntime) -> Result<(), Fail> {
    let alloc = rt.alloc();
    let program = program(alloc, GLOBALS)?;
    for (times, before, middle, after, wanted) in LIMITS {
        let text = around(alloc, times, before, middle, after)?;
        let answer = answer(alloc, &program, text.as_str())?;
        assert!(rt; answer.as_str() == wanted, "{text}");
    }
    Ok(())
}

/// A full chain in parentheses, and a step behind it: these keep the limits, so a valid filter is answered.
#[test]
fn full_chains_in_parentheses_are_filters(rt: HostRuntime) -> Result<(), Fail> {
    let alloc = rt.alloc();
    let program = program(alloc, GLOBALS)?;
    let sum = around(alloc, 64, "", "n", " + 1")?;
    let place = around(alloc, 63, "", "head->next", "->next")?;
    let sum = format!(in alloc; "({sum}) + 1")?;
    let place = format!(in alloc; "({place})->key")?;
    assert!(rt; answer(alloc, &program, sum.as_str())?.as_str() == "ok");
    assert!(rt; answer(alloc, &program, place.as_str())?.as_str() == "ok");
    Ok(())
}

#[test]
fn a_filter_is_the_tree_of_its_text(rt: HostRuntime) -> Result<(), Fail> {
    let alloc = rt.alloc();
    let program = program(alloc, FILE_SERVER)?;
    let quiet = read_filter(alloc, &program, "pending == 0")
        .ok()
        .ok_or("refused")?;
    let ExprKind::Binary(BinaryOperator::Equal, pending, zero) = &quiet.kind else {
        return Err("no equality".into());
    };
    assert!(rt; is_global(pending.get(), 2));
    assert!(rt; is_number(zero.get(), 0));
    Ok(())
}
