// In which order files are read: the plan, the sources of servers, those of updates, and the schedule. Behind a file that is
// refused none is read.

use crate::shelves::{File, SUM, answer_of, shelf_of};
use std::test::Fail;

const PLAN: &str = r#"schedule = "s"
[[server]]
name = "p"
number = 1
source = "p.c"
[[server]]
name = "q"
number = 2
source = "q.c"
[[update]]
name = "u"
server = "p"
from = 1
to = 2
source = "u.c"
"#;

const EVENTS: &str = "send 101 p 1 5\ndrain 1\nupdate u\nwork u 10\ndump q\n";

const FILES: [File<'static>; 5] = [
    ("plan", PLAN),
    ("p.c", SUM),
    ("q.c", SUM),
    ("u.c", SUM),
    ("s", EVENTS),
];

/// The files of a shelf, and what is answered to it. The first file of a name counts.
type Shelf = (&'static [File<'static>], &'static str);

/// Files that are refused, before those that aren't.
const FAULTY: [Shelf; 6] = [
    (&[], "loaded\n"),
    (
        &[
            ("s", "?"),
            ("u.c", "?"),
            ("q.c", "?"),
            ("p.c", "?"),
            ("plan", "?"),
        ],
        "refused plan toml\n",
    ),
    (
        &[("s", "?"), ("u.c", "@"), ("q.c", ""), ("p.c", "0q")],
        "refused p.c number 1 1\n",
    ),
    (
        &[("s", "?"), ("u.c", "@"), ("q.c", "")],
        "refused q.c rule 1 25\n",
    ),
    (&[("s", "?"), ("u.c", "@")], "refused u.c byte 1 1\n"),
    (&[("s", "?")], "refused schedule line 1\n"),
];

#[test]
fn the_first_refused_file_counts(rt: HostRuntime) -> Result<(), Fail> {
    let alloc = rt.alloc();
    for (faulty, line) in FAULTY {
        let mut files = faulty.to_vec(alloc)?;
        files.extend_from_slice(&FILES)?;
        let answer = answer_of(alloc, shelf_of(alloc, files.as_slice(), &[])?)?;
        assert_eq!(rt; answer.as_slice(), line.as_bytes());
    }
    Ok(())
}

#[test]
fn behind_a_refused_file_none_is_read(rt: HostRuntime) -> Result<(), Fail> {
    let alloc = rt.alloc();
    for (read, (faulty, line)) in [2, 3, 4, 5, 6].into_iter().zip(FAULTY.into_iter().skip(1)) {
        let mut files = faulty.to_vec(alloc)?;
        files.extend_from_slice(&FILES)?;
        let answer = answer_of(alloc, shelf_of(alloc, files.as_slice(), &[read])?)?;
        assert_eq!(rt; answer.as_slice(), line.as_bytes());
    }
    Ok(())
}

/// A file that isn't there.
const ABSENT: [(&str, &str); 5] = [
    ("plan", "refused plan absent\n"),
    ("p.c", "refused p.c absent\n"),
    ("q.c", "refused q.c absent\n"),
    ("u.c", "refused u.c absent\n"),
    ("s", "refused schedule absent\n"),
];

#[test]
fn each_file_may_be_absent(rt: HostRuntime) -> Result<(), Fail> {
    let alloc = rt.alloc();
    for (absent, line) in ABSENT {
        let mut files = Vec::new(alloc);
        for (name, text) in FILES {
            if name != absent {
                files.push((name, text))?;
            }
        }
        let answer = answer_of(alloc, shelf_of(alloc, files.as_slice(), &[])?)?;
        assert_eq!(rt; answer.as_slice(), line.as_bytes());
    }
    Ok(())
}

#[test]
fn each_read_may_fail(rt: HostRuntime) -> Result<(), Fail> {
    let alloc = rt.alloc();
    for read in 1..6 {
        let answer = answer_of(alloc, shelf_of(alloc, &FILES, &[read])?)?;
        assert_eq!(rt;
            answer.as_slice(),
            b"read fault\n".as_slice(),
            "read {read}"
        );
    }
    let answer = answer_of(alloc, shelf_of(alloc, &FILES, &[6])?)?;
    assert_eq!(rt; answer.as_slice(), b"loaded\n".as_slice());
    Ok(())
}
