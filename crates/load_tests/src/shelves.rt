// Shelves of texts, and what is answered to them.

use lu_base::{Bytes8, MemShelf, Name};
use lu_load::{LoadError, Setup, load};
use lu_load_lines::line_of;
use std::alloc::Global;
use std::test::Fail;

/// A file: its name and its text.
pub type File<'t> = (&'t str, &'t str);

/// A plan of one server.
pub const ONE: &str = r#"schedule = "s"
[[server]]
name = "p"
number = 1
source = "p.c"
"#;

/// A server that adds.
pub const SUM: &str = "int n;
void init(void) { }
void on_message(void) {
  n = n + m_in.arg[0];
  m_out.type = m_in.type + 100;
  m_out.arg[0] = n;
  send(m_in.source);
}
";

pub const EVENTS: &str = "send 101 p 1 5\ndrain 1\n";

/// A file as a shelf holds it.
pub fn stored(alloc: Global, name: &str, bytes: Vec<u8>) -> Result<(Name, Bytes8), Fail> {
    let name = Name::new(String::from_str(alloc, name)?);
    Ok((name, Bytes8::new(bytes)))
}

/// A shelf of these files, of which the reads of these numbers fail.
pub fn shelf_of(alloc: Global, files: &[File<'_>], failing: &[u64]) -> Result<MemShelf, Fail> {
    let mut held = Vec::new(alloc);
    for (name, text) in files {
        held.push(stored(alloc, name, text.as_bytes().to_vec(alloc)?)?)?;
    }
    Ok(MemShelf::new(held, failing.to_vec(alloc)?))
}

/// What the files stand for.
pub fn setup_of(alloc: Global, files: &[File<'_>]) -> Result<Setup, Fail> {
    let mut shelf = shelf_of(alloc, files, &[])?;
    match load(alloc, "plan", &mut shelf) {
        Ok(setup) => Ok(setup),
        Err(_) => Err("the files are refused".into()),
    }
}

/// The line of a refusal, or one that tells another answer.
pub fn answer_of(alloc: Global, mut shelf: MemShelf) -> Result<Bytes8, Fail> {
    match load(alloc, "plan", &mut shelf) {
        Ok(_) => Ok(Bytes8::new(b"loaded\n".to_vec(alloc)?)),
        Err(LoadError::Refused(refusal)) => Ok(line_of(alloc, &refusal)?),
        Err(LoadError::ReadFault) => Ok(Bytes8::new(b"read fault\n".to_vec(alloc)?)),
        Err(LoadError::Memory) => Err("out of memory".into()),
    }
}
