use plan_file::{Dangling, PlanError, Pointers, read_plan};
use std::alloc::Global;
use std::process::Abort;
use std::test::Fail;

const SERVER: &str = "schedule = \"s\"\n[[server]]\nname = \"a\"\nnumber = 1\nsource = \"a.c\"\n";

const UPDATE: &str =
    "[[update]]\nname = \"u\"\nserver = \"a\"\nfrom = 1\nto = 2\nsource = \"b.c\"\n";

// Whole texts, and what each gives.
const TEXTS: [(&str, &str); 21] = [
    ("=", "toml"),
    ("schedule = \"s\"\nschedule = \"t\"\n", "toml"),
    ("schedule = 1979-13-01\n", "toml"),
    ("\u{feff}", "field schedule"),
    ("", "field schedule"),
    ("schedule = 1\n", "field schedule"),
    ("schedule = 1979-05-27\n", "field schedule"),
    ("schedule = 1.5\n", "field schedule"),
    ("schedule = \"\"\n", "field schedule"),
    ("schedule = \"a b\"\n", "field schedule"),
    ("schedule.x = \"s\"\n", "field schedule"),
    ("Schedule = \"s\"\n", "field schedule"),
    ("schedule = \"s\"\n", "field server"),
    ("schedule = \"s\"\nserver = 1\n", "field server"),
    ("schedule = \"s\"\nserver = {}\n", "field server"),
    ("schedule = \"s\"\nserver = [1]\n", "field server"),
    ("schedule = \"s\"\nserver = [{}, 1]\n", "field server"),
    ("schedule = \"s\"\nserver = []\n", "limit server"),
    (
        "schedule = \"s\"\nserver = [{},{},{},{},{},{},{},{},{},{},{},{},{},{},{},{},{}]\n",
        "limit server",
    ),
    (
        "schedule = \"s\"\nserver = [{}]\nx = 1\n",
        "field server.name",
    ),
    ("x = 1\n", "field schedule"),
];

// Tables of a first server, and what each gives.
const SERVERS: [(&str, &str); 20] = [
    (
        "name = \"a\"\nnumber = 1\nsource = \"a.c\"\npointers = \"big\"\n",
        "field server.pointers",
    ),
    (
        "name = \"a\"\nnumber = 1\nsource = \"a.c\"\npointers = \"big\"\nversion = 0\n",
        "field server.version",
    ),
    ("number = 1\nsource = \"a.c\"\n", "field server.name"),
    (
        "name = 1\nnumber = 1\nsource = \"a.c\"\n",
        "field server.name",
    ),
    (
        "name = \"1a\"\nnumber = 1\nsource = \"a.c\"\n",
        "field server.name",
    ),
    (
        "name = \"\"\nnumber = 1\nsource = \"a.c\"\n",
        "field server.name",
    ),
    (
        "name = \"a234567890123456789012345678901234567890123456789012345678901234\"\n",
        "field server.name",
    ),
    (
        "name = \"a23456789012345678901234567890123456789012345678901234567890123\"\n",
        "field server.number",
    ),
    ("name = \"a\"\nsource = \"a.c\"\n", "field server.number"),
    (
        "name = \"a\"\nnumber = 0\nsource = \"a.c\"\n",
        "field server.number",
    ),
    (
        "name = \"a\"\nnumber = 17\nsource = \"a.c\"\n",
        "field server.number",
    ),
    (
        "name = \"a\"\nnumber = -1\nsource = \"a.c\"\n",
        "field server.number",
    ),
    (
        "name = \"a\"\nnumber = \"1\"\nsource = \"a.c\"\n",
        "field server.number",
    ),
    (
        "name = \"a\"\nnumber = 1.0\nsource = \"a.c\"\n",
        "field server.number",
    ),
    ("name = \"a\"\nnumber = 1\n", "field server.source"),
    (
        "name = \"a\"\nnumber = 1\nsource = \"a*c\"\n",
        "field server.source",
    ),
    (
        "name = \"a\"\nnumber = 1\nsource = \"a.c\"\nversion = 0\n",
        "field server.version",
    ),
    (
        "name = \"a\"\nnumber = 1\nsource = \"a.c\"\nversion = 1000001\n",
        "field server.version",
    ),
    (
        "name = \"a\"\nnumber = 1\nsource = \"a.c\"\npointer = \"wide\"\n",
        "field server.?",
    ),
    (
        "name = \"a\"\nnumber = 0x10\nsource = \"../a_-/Z.c\"\nversion = 1000000\n",
        "ok",
    ),
];

// What follows a good server, and what each gives.
const AFTER_SERVER: [(&str, &str); 22] = [
    (
        "[[server]]\nname = \"a\"\nnumber = 2\nsource = \"a.c\"\n",
        "field server.name",
    ),
    (
        "[[server]]\nname = \"b\"\nnumber = 1\nsource = \"a.c\"\n",
        "field server.number",
    ),
    ("[other]\n", "field ?"),
    ("[update]\n", "field update"),
    ("[[update]]\n", "field update.name"),
    ("[[update]]\nname = \"u v\"\n", "field update.name"),
    ("[[update]]\nname = \"u\"\n", "field update.server"),
    (
        "[[update]]\nname = \"u\"\nserver = \"b\"\n",
        "field update.server",
    ),
    (
        "[[update]]\nname = \"u\"\nserver = 0\n",
        "field update.server",
    ),
    (
        "[[update]]\nname = \"u\"\nserver = \"a\"\n",
        "field update.from",
    ),
    (
        "[[update]]\nname = \"u\"\nserver = \"a\"\nfrom = 2\n",
        "field update.from",
    ),
    (
        "[[update]]\nname = \"u\"\nserver = \"a\"\nfrom = \"1\"\n",
        "field update.from",
    ),
    (
        "[[update]]\nname = \"u\"\nserver = \"a\"\nfrom = 1\n",
        "field update.to",
    ),
    (
        "[[update]]\nname = \"u\"\nserver = \"a\"\nfrom = 1\nto = 1\n",
        "field update.to",
    ),
    (
        "[[update]]\nname = \"u\"\nserver = \"a\"\nfrom = 1\nto = 0\n",
        "field update.to",
    ),
    (
        "[[update]]\nname = \"u\"\nserver = \"a\"\nfrom = 1\nto = 1000001\n",
        "field update.to",
    ),
    (
        "[[update]]\nname = \"u\"\nserver = \"a\"\nfrom = 1\nto = 2\n",
        "field update.source",
    ),
    (
        "[[update]]\nname = \"u\"\nserver = \"a\"\nfrom = 1\nto = 2\nsource = \"b.c\"\ncolour = 1\n",
        "field update.?",
    ),
    (
        "[[update]]\nname = \"u\"\nserver = \"a\"\nfrom = 1\nto = 2\nsource = \"b.c\"\n[x]\n",
        "field ?",
    ),
    (
        "[[update]]\nfrom = 9\nname = \"u\"\nx = 1\n",
        "field update.server",
    ),
    ("[update.rename]\n", "field update"),
    ("", "ok"),
];

// What follows a good update, and what each gives.
const AFTER_UPDATE: [(&str, &str); 52] = [
    ("pointers = 8\n", "field update.pointers"),
    ("pointers = \"Wide\"\nfilter = 1\n", "field update.pointers"),
    ("filter = 1\n", "field update.filter"),
    ("filter.x = 1\n", "field update.filter"),
    ("hold = 1\n", "field update.hold"),
    ("hold = [\"1\"]\n", "field update.hold"),
    ("hold = [2147483648]\n", "field update.hold"),
    ("hold = [-2147483649]\n", "field update.hold"),
    ("hold = [-2147483648, 2147483647]\n", "ok"),
    ("tries = 0\n", "field update.tries"),
    ("tries = 1001\n", "field update.tries"),
    ("tries = 1.5\n", "field update.tries"),
    ("tries = 1000\n", "ok"),
    ("dangling = \"keep\"\n", "field update.dangling"),
    ("dangling = true\n", "field update.dangling"),
    ("gated = 1\n", "field update.gated"),
    ("gated = 07:32:00\n", "field update.gated"),
    ("after = {}\n", "field update.after"),
    ("after = \"9\"\n", "field update.after"),
    ("rename = 1\n", "field update.rename"),
    ("rename.global = 1\n", "field update.rename.global"),
    ("rename.global = { a = 1 }\n", "field update.rename.global"),
    (
        "rename.global = { a = \"b.c\" }\n",
        "field update.rename.global",
    ),
    (
        "rename.global = { \"a-b\" = \"c\" }\n",
        "field update.rename.global",
    ),
    ("rename.struct = []\n", "field update.rename.struct"),
    (
        "rename.field = { a = \"b\" }\n",
        "field update.rename.field",
    ),
    (
        "rename.field = { a.b = \"c\" }\n",
        "field update.rename.field",
    ),
    (
        "rename.field = { \"a.b\" = \"c.d\" }\n",
        "field update.rename.field",
    ),
    ("rename.field = { \"a.b\" = \"c\" }\n", "ok"),
    (
        "rename.union = { \"1\" = \"b\" }\n",
        "field update.rename.union",
    ),
    (
        "rename.member = { \"a.\" = \"b\" }\n",
        "field update.rename.member",
    ),
    (
        "rename.function = { f = \"\" }\n",
        "field update.rename.function",
    ),
    (
        "rename.site = { f = \"g#1\" }\n",
        "field update.rename.site",
    ),
    (
        "rename.site = { \"f#0\" = \"g#\" }\n",
        "field update.rename.site",
    ),
    ("rename.site = { \"f#00\" = \"g#1\" }\n", "ok"),
    ("rename.zz = 1\n", "field update.rename.?"),
    (
        "rename.zz = 1\nrename.site = 1\n",
        "field update.rename.site",
    ),
    ("handler = 1\n", "field update.handler"),
    ("handler = [1]\n", "field update.handler"),
    ("handler = []\n", "ok"),
    (
        "handler = [{},{},{},{},{},{},{},{},{},{},{},{},{},{},{},{},{}]\n",
        "limit handler",
    ),
    (
        "handler = [{ old_form = \"p\", function = \"f\" }]\n",
        "field update.handler.struct",
    ),
    (
        "handler = [{ struct = \"s\", function = \"f\" }]\n",
        "field update.handler.old_form",
    ),
    (
        "handler = [{ struct = \"s\", old_form = \"p\" }]\n",
        "field update.handler.function",
    ),
    (
        "handler = [{ struct = \"s\", old_form = \"p\", function = 1 }]\n",
        "field update.handler.function",
    ),
    (
        "handler = [{ struct = \"s\", old_form = \"p\", function = \"f\", old = \"s\" }]\n",
        "field update.handler.?",
    ),
    ("filter = \"x\"\nfilter = \"y\"\n", "toml"),
    ("rename = 1\nhandler = 1\n", "field update.rename"),
    ("adapt = \"f\"\nhandler = 1\n", "field update.handler"),
    (
        "[[update]]\nname = \"u\"\nserver = \"a\"\nfrom = 1\nto = 3\nsource = \"b.c\"\n",
        "field update.name",
    ),
    (
        "[[update]]\nname = \"v\"\nserver = \"a\"\nfrom = 1\nto = 2\nsource = \"b.c\"\n",
        "field update.to",
    ),
    (
        "[[update]]\nname = \"v\"\nserver = \"a\"\nfrom = 2\nto = 3\nsource = \"b.c\"\n",
        "ok",
    ),
];

fn check(rt: &impl Abort, alloc: Global, text: &[u8], wanted: &str) -> Result<(), Fail> {
    match read_plan(alloc, text) {
        Ok(_) => assert_eq!(rt; "ok", wanted),
        Err(error) => {
            let told = format!(in alloc; "{error}")?;
            assert_eq!(rt; told.as_str(), wanted);
        }
    }
    Ok(())
}

#[test]
fn each_broken_text_names_its_key(rt: HostRuntime) -> Result<(), Fail> {
    let alloc = rt.alloc();
    for (text, wanted) in TEXTS {
        check(&rt, alloc, text.as_bytes(), wanted)?;
    }
    check(&rt, alloc, b"schedule = \"\xff\"\n", "toml")?;
    for (table, wanted) in SERVERS {
        let text = format!(in alloc; "schedule = \"s\"\n[[server]]\n{table}")?;
        check(&rt, alloc, text.as_bytes(), wanted)?;
    }
    Ok(())
}

#[test]
fn each_broken_update_names_its_key(rt: HostRuntime) -> Result<(), Fail> {
    let alloc = rt.alloc();
    for (tail, wanted) in AFTER_SERVER {
        let text = format!(in alloc; "{SERVER}{tail}")?;
        check(&rt, alloc, text.as_bytes(), wanted)?;
    }
    for (tail, wanted) in AFTER_UPDATE {
        let text = format!(in alloc; "{SERVER}{UPDATE}{tail}")?;
        check(&rt, alloc, text.as_bytes(), wanted)?;
    }
    Ok(())
}

#[test]
fn lists_have_their_limits(rt: HostRuntime) -> Result<(), Fail> {
    let alloc = rt.alloc();
    let mut text = String::from_str(alloc, "schedule = \"s\"\nserver = [{}")?;
    for _ in 0..16 {
        text.push_str(",{}")?;
    }
    text.push_str("]\n")?;
    check(&rt, alloc, text.as_bytes(), "limit server")?;
    let mut text = String::from_str(alloc, "update = [{}")?;
    for _ in 0..64 {
        text.push_str(",{}")?;
    }
    text.push_str("]\n")?;
    text.push_str(SERVER)?;
    check(&rt, alloc, text.as_bytes(), "limit update")?;
    let mut text = format!(in alloc; "{SERVER}{UPDATE}hold = [0")?;
    for _ in 0..64 {
        text.push_str(",0")?;
    }
    text.push_str("]\n")?;
    check(&rt, alloc, text.as_bytes(), "field update.hold")?;
    let mut text = format!(in alloc; "{SERVER}{UPDATE}filter = \"")?;
    for _ in 0..4097 {
        text.push_str("1")?;
    }
    text.push_str("\"\n")?;
    check(&rt, alloc, text.as_bytes(), "field update.filter")?;
    Ok(())
}

#[test]
fn defaults_stand_in(rt: HostRuntime) -> Result<(), PlanError> {
    let alloc = rt.alloc();
    let text = format!(in alloc; "{SERVER}{UPDATE}")?;
    let plan = read_plan(alloc, text.as_bytes())?;
    assert_eq!(&rt; plan.schedule.as_str(), "s");
    for server in plan.server.as_slice() {
        assert_eq!(&rt; server.name.as_str(), "a");
        assert_eq!(&rt; server.version, 1);
        assert_eq!(&rt; server.pointers, Pointers::Narrow);
    }
    for update in plan.update.as_slice() {
        assert_eq!(&rt; update.pointers, Pointers::Narrow);
        assert_eq!(&rt; update.filter.as_str(), "1");
        assert_eq!(&rt; update.hold.as_slice().len(), 0);
        assert_eq!(&rt; update.tries, 16);
        assert_eq!(&rt; update.dangling, Dangling::Refuse);
        assert!(&rt; !update.gated && update.after.is_none());
        assert_eq!(&rt; update.rename.as_slice().len(), 0);
        assert_eq!(&rt; update.handler.as_slice().len(), 0);
    }
    assert_eq!(&rt; plan.server.into_vec().len(), 1);
    assert_eq!(&rt; plan.update.into_vec().len(), 1);
    Ok(())
}

#[test]
fn renames_and_handlers_keep_their_order(rt: HostRuntime) -> Result<(), PlanError> {
    let alloc = rt.alloc();
    let extra =
        "[update.rename]\nsite = { \"g#1\" = \"g#0\", \"f#0\" = \"f#7\" }\nstruct = { s = \"t\" }\n[[update.handler]]\nstruct = \"s\"\nold_form = \"p\"\nfunction = \"f\"\n";
    let text = format!(in alloc; "{SERVER}{UPDATE}hold = [7]\n{extra}")?;
    let plan = read_plan(alloc, text.as_bytes())?;
    let mut told = String::new(alloc);
    for update in plan.update.as_slice() {
        for kind in update.hold.as_slice() {
            write!(told, "{kind};")?;
        }
        for rename in update.rename.as_slice() {
            let (table, old, new) = (
                rename.table.as_str(),
                rename.old.as_str(),
                rename.new.as_str(),
            );
            write!(told, "{table} {old} {new};")?;
        }
        for handler in update.handler.as_slice() {
            let (old, form, function) = (
                handler.old.as_str(),
                handler.old_form.as_str(),
                handler.function.as_str(),
            );
            write!(told, "{old} {form} {function};")?;
        }
    }
    assert_eq!(&rt;
        told.as_str(),
        "7;struct s t;site f#0 f#7;site g#1 g#0;s p f;"
    );
    Ok(())
}
