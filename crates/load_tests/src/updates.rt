// What an update says between two programs, and the line of each refusal.

use crate::shelves::{EVENTS, answer_of, shelf_of};
use std::alloc::Global;
use std::process::Abort;
use std::test::Fail;

/// The tables before what an update says of itself.
const PLAN: &str = r#"schedule = "s"
[[server]]
name = "p"
number = 1
source = "p.c"
[[update]]
name = "u"
server = "p"
from = 1
to = 2
source = "u.c"
"#;

const OLD: &str = "struct e { int x; };
int a;
int b;
struct e tab[3];
void init(void) { }
void on_message(void) { }
";

const NEW: &str = "struct e_old { int x; };
struct e { int x; int y; };
int b;
int z;
struct e tab[3];
void fix(void) { }
void up(struct e_old *o, struct e *w) { w->x = o->x; }
int count(int n) { return n; }
void init(void) { }
void on_message(void) { }
";

/// What an update says, and what is answered.
const UPDATES: [(&str, &str); 22] = [
    ("", "loaded\n"),
    ("filter = \"a == 0\"", "loaded\n"),
    ("filter = \"&a\"", "refused update u filter notint\n"),
    ("filter = \"z == 0\"", "refused update u filter rule 11\n"),
    ("filter = \"a ==\"", "refused update u filter syntax\n"),
    ("filter = \"a == @\"", "refused update u filter byte 6\n"),
    ("filter = \"a == 0q\"", "refused update u filter number 6\n"),
    ("rename.global = { a = \"z\" }", "loaded\n"),
    (
        "rename.global = { zz = \"z\" }",
        "refused update u nosuch global zz\n",
    ),
    (
        "rename.global = { a = \"zz\" }",
        "refused update u nosuch global zz\n",
    ),
    (
        "rename.global = { a = \"z\", b = \"z\" }",
        "refused update u twice global z\n",
    ),
    (
        "rename.field = { \"e.y\" = \"x\" }",
        "refused update u nosuch field e.y\n",
    ),
    (
        "rename.site = { \"init#0\" = \"init#0\" }",
        "refused update u nosuch site init#0\n",
    ),
    ("after = \"fix\"", "loaded\n"),
    ("after = \"count\"", "refused update u nosuch after count\n"),
    ("after = \"zz\"", "refused update u nosuch after zz\n"),
    (
        "handler = [{ struct = \"e\", old_form = \"e_old\", function = \"up\" }]",
        "loaded\n",
    ),
    (
        "handler = [{ struct = \"f\", old_form = \"e_old\", function = \"up\" }]",
        "refused update u nosuch handler f\n",
    ),
    (
        "handler = [{ struct = \"e\", old_form = \"g\", function = \"up\" }]",
        "refused update u nosuch handler g\n",
    ),
    (
        "handler = [{ struct = \"e\", old_form = \"e_old\", function = \"up2\" }]",
        "refused update u nosuch handler up2\n",
    ),
    (
        "handler = [{ struct = \"e\", old_form = \"e\", function = \"up\" }]",
        "refused update u nosuch handler up\n",
    ),
    (
        "handler = [{ struct = \"e\", old_form = \"e_old\", function = \"up\" }, { struct = \"e\", old_form = \"e_old\", function = \"up\" }]",
        "refused update u twice handler e\n",
    ),
];

/// Loads an update that says so, and compares the answer.
fn load_so(rt: &impl Abort, alloc: Global, said: &str, line: &str) -> Result<(), Fail> {
    let plan = format!(in alloc; "{PLAN}{said}\n")?;
    let files = [
        ("plan", plan.as_str()),
        ("p.c", OLD),
        ("u.c", NEW),
        ("s", EVENTS),
    ];
    let answer = answer_of(alloc, shelf_of(alloc, &files, &[])?)?;
    assert_eq!(rt; answer.as_slice(), line.as_bytes(), "of {said}");
    Ok(())
}

#[test]
fn updates_are_refused(rt: HostRuntime) -> Result<(), Fail> {
    for (said, line) in UPDATES {
        load_so(&rt, rt.alloc(), said, line)?;
    }
    Ok(())
}
