// What the checker answers to texts, beside what its rules say of them.

use c_check::check::{check, check_as};
use c_check_scope::error::CheckError;
use c_lex::lex;
use c_parse::program::parse;
use src_tree::program::Program;
use std::alloc::Global;
use std::test::Fail;

/// The declaration and the code that a refusal of this text names; 0 and 0 where it was accepted.
fn named(
    alloc: Global,
    text: &str,
    checked: Result<Program, CheckError>,
) -> Result<(usize, u32), Fail> {
    match checked {
        Ok(_) => Ok((0, 0)),
        Err(CheckError::Rule { decl, code }) => Ok((decl, code)),
        Err(CheckError::Memory) => Err(Fail::new(format!(in alloc; "out of memory: {text}")?)),
    }
}

/// The declaration and the code that a refusal of this text names; 0 and 0 where it is accepted.
pub fn verdict(alloc: Global, text: &str) -> Result<(usize, u32), Fail> {
    let tokens = lex(alloc, text.as_bytes())?;
    let tree = parse(alloc, tokens.as_slice())?;
    named(alloc, text, check(alloc, tree.as_slice()))
}

/// The same where pointers take so many bytes.
pub fn verdict_as(alloc: Global, text: &str, pointer: u32) -> Result<(usize, u32), Fail> {
    let tokens = lex(alloc, text.as_bytes())?;
    let tree = parse(alloc, tokens.as_slice())?;
    let checked = match pointer {
        4 => check_as(alloc, tree.as_slice(), 4),
        8 => check_as(alloc, tree.as_slice(), 8),
        _ => return Err("no size of a pointer".into()),
    };
    named(alloc, text, checked)
}

/// The handlers that a text needs, and that a line of a table leaves out.
pub const HANDLERS: &str = " void init(void) { } void on_message(void) { }";

/// The text that a line of a table stands for: a `+` in front puts the handlers behind it.
fn whole(alloc: Global, text: &str) -> Result<String, Fail> {
    match text.strip_prefix("+") {
        None => Ok(String::from_str(alloc, text)?),
        Some(text) => {
            let mut whole = String::from_str(alloc, text)?;
            whole.push_str(HANDLERS)?;
            Ok(whole)
        }
    }
}

/// The text of a line `DECL CODE TEXT`.
fn text_of(line: &str) -> Result<&str, Fail> {
    let (_, rest) = line.split_once(" ").ok_or("no code")?;
    let (_, text) = rest.split_once(" ").ok_or("no text")?;
    Ok(text)
}

/// The line as the checker would have it.
fn judged(alloc: Global, line: &str) -> Result<String, Fail> {
    let text = text_of(line)?;
    let (decl, code) = verdict(alloc, whole(alloc, text)?.as_str())?;
    Ok(format!(in alloc; "{decl} {code} {text}")?)
}

/// The lines of a table that the checker would have otherwise, each as the checker has it. A line that begins with `#`
/// is a comment.
pub fn differing(alloc: Global, table: &str) -> Result<String, Fail> {
    let mut all = String::new(alloc);
    for line in table.lines() {
        if !line.starts_with("#") {
            let line_judged = judged(alloc, line)?;
            if line_judged.as_str() != line {
                all.push_str(line_judged.as_str())?;
                all.push_str("\n")?;
            }
        }
    }
    Ok(all)
}

/// Of texts with lines `----` between them, those that the checker refuses.
pub fn refused(alloc: Global, texts: &str) -> Result<String, Fail> {
    let mut all = String::new(alloc);
    for text in texts.split("----\n") {
        if verdict(alloc, text)? != (0, 0) {
            all.push_str(text)?;
        }
    }
    Ok(all)
}
