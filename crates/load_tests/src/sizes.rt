// How long files and functions may be: a plan and a source 1,048,576 bytes, a schedule 8,388,608, and a body may weigh 16,384.

use crate::shelves::{EVENTS, ONE, SUM, answer_of, shelf_of, stored};
use lu_base::{Bytes8, MemShelf};
use std::alloc::Global;
use std::test::Fail;

/// A text with spaces behind it, up to so many bytes.
fn filled(alloc: Global, text: &str, size: usize) -> Result<Vec<u8>, Fail> {
    let mut bytes = text.as_bytes().to_vec(alloc)?;
    let spaces = vec![in alloc; b' '; size.saturating_sub(text.len())]?;
    bytes.extend_from_slice(spaces.as_slice())?;
    Ok(bytes)
}

/// What is answered where the file of that name has so many bytes.
fn answer_at(alloc: Global, long: &str, size: usize) -> Result<Bytes8, Fail> {
    let mut files = Vec::new(alloc);
    for (name, text) in [("plan", ONE), ("p.c", SUM), ("s", EVENTS)] {
        let bytes = filled(alloc, text, if name == long { size } else { 0 })?;
        files.push(stored(alloc, name, bytes)?)?;
    }
    answer_of(alloc, MemShelf::new(files, Vec::new(alloc)))
}

/// A file, its size, and what is answered to it.
const SIZES: [(&str, usize, &str); 6] = [
    ("plan", 1_048_576, "loaded\n"),
    ("plan", 1_048_577, "refused plan size\n"),
    ("p.c", 1_048_576, "loaded\n"),
    ("p.c", 1_048_577, "refused p.c size\n"),
    ("s", 8_388_608, "loaded\n"),
    ("s", 8_388_609, "refused schedule size\n"),
];

#[test]
fn files_have_their_limits(rt: HostRuntime) -> Result<(), Fail> {
    let alloc = rt.alloc();
    for (long, size, line) in SIZES {
        let answer = answer_at(alloc, long, size)?;
        assert_eq!(rt; answer.as_slice(), line.as_bytes(), "{size} bytes");
    }
    Ok(())
}

#[test]
fn a_source_of_parentheses_is_refused(rt: HostRuntime) -> Result<(), Fail> {
    let alloc = rt.alloc();
    let mut files = Vec::new(alloc);
    files.push(stored(alloc, "plan", ONE.as_bytes().to_vec(alloc)?)?)?;
    let mut source = b"int n = ".to_vec(alloc)?;
    source.extend_from_slice(vec![in alloc; b'('; 100_000]?.as_slice())?;
    files.push(stored(alloc, "p.c", source)?)?;
    let answer = answer_of(alloc, MemShelf::new(files, Vec::new(alloc)))?;
    assert_eq!(rt; answer.as_slice(), b"refused p.c deep 1\n".as_slice());
    Ok(())
}

/// So many empty statements as body of a function, and what is answered.
const WEIGHTS: [(u32, &str); 2] = [
    (16_384, "loaded\n"),
    (16_385, "refused p.c long on_message\n"),
];

#[test]
fn functions_may_be_too_long(rt: HostRuntime) -> Result<(), Fail> {
    let alloc = rt.alloc();
    for (weight, line) in WEIGHTS {
        let mut source = String::from_str(alloc, "void init(void) { }\nvoid on_message(void) {")?;
        for _ in 0..weight {
            source.push_str(";")?;
        }
        source.push_str("}\n")?;
        let files = [("plan", ONE), ("p.c", source.as_str()), ("s", EVENTS)];
        let answer = answer_of(alloc, shelf_of(alloc, &files, &[])?)?;
        assert_eq!(rt; answer.as_slice(), line.as_bytes(), "{weight} statements");
    }
    Ok(())
}
