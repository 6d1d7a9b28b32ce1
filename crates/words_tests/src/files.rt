// Files and output in memory, of the system, and names.

use lu_base::{
    Bytes8, CalmShelf, FileShelf, MemShelf, MemSink, Name, OutSink, Shelf, ShelfFault, Sink,
    SinkFault,
};
use std::env::temp_dir;
use std::test::Fail;
use std::{fs, process};

// A shelf's two files, of which the second is never seen.
fn files(alloc: std::alloc::Global) -> Result<Vec<(Name, Bytes8)>, Fail> {
    let mut files = Vec::new(alloc);
    for text in ["one", "two"] {
        let name = Name::from_ascii(alloc, b"a")?;
        files.push((name, Bytes8::new(text.as_bytes().to_vec(alloc)?)))?;
    }
    Ok(files)
}

#[test]
fn the_first_file_counts_and_the_second_read_fails(rt: HostRuntime) -> Result<(), Fail> {
    let alloc = rt.alloc();
    let mut shelf = MemShelf::new(files(alloc)?, vec![in alloc; 2]?);
    let bytes = shelf.read(alloc, "a", 3)?.copy(alloc)?;
    assert_eq!(rt; bytes, Bytes8::new(b"one".to_vec(alloc)?));
    assert!(rt; matches!(shelf.read(alloc, "a", 3), Err(ShelfFault::Failed)));
    assert!(rt; matches!(shelf.read(alloc, "a", 2), Err(ShelfFault::TooLarge)));
    assert!(rt; matches!(shelf.read(alloc, "b", 3), Err(ShelfFault::Absent)));
    let mut calm = CalmShelf::new(files(alloc)?);
    assert!(rt; calm.read(alloc, "a", 3)? == bytes);
    Ok(())
}

#[test]
fn a_front_goes_out_where_a_write_fails(rt: HostRuntime) -> Result<(), Fail> {
    let alloc = rt.alloc();
    let mut sink = MemSink::new(alloc, vec![in alloc; (2, 4), (2, 1)]?);
    sink.write(b"one ")?;
    assert_eq!(rt; sink.write(b"second"), Err(SinkFault::Failed));
    assert_eq!(rt; sink.written(), b"one seco".as_slice());
    Ok(())
}

#[test]
fn names_are_copied(rt: HostRuntime) -> Result<(), Fail> {
    let alloc = rt.alloc();
    let name = Name::new(String::from_str(alloc, "fs")?);
    assert_eq!(rt; name.copy(alloc)?, Name::from_ascii(alloc, b"fs")?);
    assert_eq!(rt; name.as_str(), "fs");
    assert_eq!(rt; name.into_string().as_str(), "fs");
    Ok(())
}

#[test]
fn a_real_file_is_read(rt: HostRuntime) -> Result<(), Fail> {
    let alloc = rt.alloc();
    let folder = temp_dir(&rt)?;
    let id = process::id(rt.process());
    let path = format!(in alloc; "{}/lu_base_{id}", folder.display())?;
    fs::write(&rt, path.as_str(), "held")?;
    let mut shelf = FileShelf::new(&rt);
    let bytes = shelf.read(alloc, path.as_str(), 4)?;
    assert_eq!(rt; bytes.as_slice(), b"held".as_slice());
    assert!(rt;
        matches!(
            shelf.read(alloc, path.as_str(), 3),
            Err(ShelfFault::TooLarge)
        )
    );
    fs::remove_file(&rt, path.as_str())?;
    assert!(rt; matches!(shelf.read(alloc, path.as_str(), 4), Err(ShelfFault::Absent)));
    assert!(rt; matches!(shelf.read(alloc, "/", 4), Err(ShelfFault::Failed)));
    Ok(())
}

#[test]
fn a_line_goes_to_standard_output(rt: HostRuntime) -> Result<(), Fail> {
    OutSink::new(&rt).write(b"a line\n")?;
    Ok(())
}
