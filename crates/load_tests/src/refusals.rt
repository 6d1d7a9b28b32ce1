// The line of each refusal. What is expected of each file comes from the rules of plans, of the language and of schedules.

use crate::shelves::{EVENTS, ONE, SUM, answer_of, shelf_of};
use std::test::Fail;

/// Plans, and the line of each.
const PLANS: [(&str, &str); 12] = [
    ("=", "refused plan toml\n"),
    ("schedule = \"s\n", "refused plan toml\n"),
    ("", "refused plan field schedule\n"),
    (
        "[[server]]\nname = \"p\"\nnumber = 1\nsource = \"p.c\"\n",
        "refused plan field schedule\n",
    ),
    ("schedule = \"s\"\n", "refused plan field server\n"),
    (
        "schedule = \"s\"\nserver = []\n",
        "refused plan limit server\n",
    ),
    (
        "schedule = \"s\"\nserver = [{},{},{},{},{},{},{},{},{},{},{},{},{},{},{},{},{}]\n",
        "refused plan limit server\n",
    ),
    (
        "schedule = \"s\"\nserver = [{ name = \"p\", number = 17, source = \"p.c\" }]\n",
        "refused plan field server.number\n",
    ),
    (
        "schedule = \"s\"\nserver = [{ name = \"p\", number = 1, source = \"p.c\", file = 1 }]\n",
        "refused plan field server.?\n",
    ),
    (
        "schedule = \"s\"\nserver = [{ name = \"p\", number = 1, source = \"p.c\" }]\nname = 1\n",
        "refused plan field ?\n",
    ),
    (
        "schedule = \"s\"\nserver = [{ name = \"p\", number = 1, source = \"p.c\" }]\nupdate = [{}]\n",
        "refused plan field update.name\n",
    ),
    (ONE, "loaded\n"),
];

#[test]
fn plans_are_refused(rt: HostRuntime) -> Result<(), Fail> {
    let alloc = rt.alloc();
    for (plan, line) in PLANS {
        let files = [("plan", plan), ("p.c", SUM), ("s", EVENTS)];
        let answer = answer_of(alloc, shelf_of(alloc, &files, &[])?)?;
        assert_eq!(rt; answer.as_slice(), line.as_bytes(), "of {plan}");
    }
    Ok(())
}

/// Sources, and the line of each.
const SOURCES: [(&str, &str); 12] = [
    ("int @", "refused p.c byte 1 5\n"),
    ("int n;\n\n  /* int", "refused p.c byte 3 3\n"),
    ("int n = 9223372036854775808;", "refused p.c number 1 9\n"),
    ("int n", "refused p.c syntax 1\n"),
    ("int n; void init(void) {", "refused p.c syntax 2\n"),
    (
        "int n = (((((((((((((((((((((((((((((((1)))))))))))))))))))))))))))))));",
        "refused p.c deep 1\n",
    ),
    (
        "int n = ((((((((((((((((((((((((((((((1))))))))))))))))))))))))))))));",
        "refused p.c rule 2 25\n",
    ),
    ("", "refused p.c rule 1 25\n"),
    ("int n;", "refused p.c rule 2 25\n"),
    ("int n; int n;", "refused p.c rule 2 1\n"),
    (
        "void init(void) { n = 1; } int n; void on_message(void) { n = 1 }",
        "refused p.c syntax 3\n",
    ),
    (
        "void init(void) { n = 1; } int n; void on_message(void) { n = 1; }",
        "refused p.c rule 1 11\n",
    ),
];

#[test]
fn sources_are_refused(rt: HostRuntime) -> Result<(), Fail> {
    let alloc = rt.alloc();
    for (source, line) in SOURCES {
        let files = [("plan", ONE), ("p.c", source), ("s", EVENTS)];
        let answer = answer_of(alloc, shelf_of(alloc, &files, &[])?)?;
        assert_eq!(rt; answer.as_slice(), line.as_bytes(), "of {source}");
    }
    Ok(())
}

/// Schedules, and the line of each.
const SCHEDULES: [(&str, &str); 9] = [
    ("", "loaded\n"),
    ("sned 101 p 1\n", "refused schedule line 1\n"),
    (
        "send 101 p 1\ndrain 1\nsned 101 p 1\n",
        "refused schedule line 3\n",
    ),
    ("# none\n\nrun q 1\n", "refused schedule line 3\n"),
    ("update u\n", "refused schedule line 1\n"),
    ("send 99 p 1\n", "refused schedule line 1\n"),
    (
        "drain 10000\ndrain 10000\ndrain 10000\ndrain 10000\ndrain 10000\ndrain 10000\ndrain 10000\ndrain 10000\ndrain 10000\ndrain 10000\n",
        "loaded\n",
    ),
    (
        "drain 10000\ndrain 10000\ndrain 10000\ndrain 10000\ndrain 10000\ndrain 10000\ndrain 10000\ndrain 10000\ndrain 10000\ndrain 10000\ndrain 10000\n",
        "refused schedule limit\n",
    ),
    (
        "drain 10000\ndrain 10000\ndrain 10000\ndrain 10000\ndrain 10000\ndrain 10000\ndrain 10000\ndrain 10000\ndrain 10000\ndrain 10000\ndrian 1\n",
        "refused schedule line 11\n",
    ),
];

#[test]
fn schedules_are_refused(rt: HostRuntime) -> Result<(), Fail> {
    let alloc = rt.alloc();
    for (schedule, line) in SCHEDULES {
        let files = [("plan", ONE), ("p.c", SUM), ("s", schedule)];
        let answer = answer_of(alloc, shelf_of(alloc, &files, &[])?)?;
        assert_eq!(rt; answer.as_slice(), line.as_bytes(), "of {schedule}");
    }
    Ok(())
}
