use plan_file::{Plan, read_plan};
use sched_file::{Event, Message, read_schedule};
use std::alloc::Global;
use std::test::Fail;

const PLAN: &str = "schedule = \"s\"
server = [
  { name = \"fs\", number = 1, source = \"a.c\" },
  { name = \"disk\", number = 2, source = \"a.c\" },
]
update = [
  { name = \"up\", server = \"fs\", from = 1, to = 2, source = \"b.c\" },
  { name = \"on\", server = \"disk\", from = 1, to = 2, source = \"b.c\" },
]
";

const ONE_SERVER: &str =
    "schedule = \"s\"\nserver = [{ name = \"fs\", number = 1, source = \"a.c\" }]\n";

// Texts, and how many events or which refusal each gives.
const TEXTS: [(&str, &str); 56] = [
    ("", "0 events"),
    ("\n\n", "0 events"),
    ("\r\n", "0 events"),
    ("   \r\n#send\n # \n", "line 3"),
    ("# no event\r\n  \n", "0 events"),
    ("send 100 fs 1 5\r\ndrain 3\r\n", "7 events"),
    ("send 100 fs 1 5\ndrain 3", "7 events"),
    ("  send   100  fs 1 ", "1 events"),
    ("\tsend 100 fs 1", "line 1"),
    ("send\t100 fs 1", "line 1"),
    ("send 100 fs 1\r\r\n", "line 1"),
    ("send 101 fs 1\nsend 101 fs 1\nsned 101 fs 1\n", "line 3"),
    ("send 100 fs 1 1 2 3 4 5 6", "1 events"),
    ("send 100 fs 1 1 2 3 4 5 6 7", "line 1"),
    ("send 100 fs", "line 1"),
    ("send 99 fs 1", "line 1"),
    ("send 999 fs 1", "1 events"),
    ("send 1000 fs 1", "line 1"),
    ("send 0000000000000000000000100 fs 01", "1 events"),
    ("send 18446744073709551716 fs 1", "line 1"),
    ("send 100 f 1", "line 1"),
    ("send 100 up 1", "line 1"),
    ("send 100 fs -0", "1 events"),
    ("send 100 fs --0", "line 1"),
    ("send 100 fs -", "line 1"),
    ("send 100 fs +1", "line 1"),
    ("send 100 fs 2147483647", "1 events"),
    ("send 100 fs 2147483648", "line 1"),
    ("send 100 fs 1 -2147483648", "1 events"),
    ("send 100 fs 1 -2147483649", "line 1"),
    ("send 100 fs 1a", "line 1"),
    ("run fs 0", "line 1"),
    ("run fs 1", "1 events"),
    ("run fs 1000000", "1 events"),
    ("run fs 1000001", "line 1"),
    ("run fs -1", "line 1"),
    ("run fs", "line 1"),
    ("run fs 1 1", "line 1"),
    ("run up 1", "line 1"),
    ("drain 0", "line 1"),
    ("drain 10001", "line 1"),
    ("drain 1 1", "line 1"),
    (
        "drain 10000\ndrain 10000\ndrain 10000\ndrain 10000\ndrain 10000",
        "100000 events",
    ),
    (
        "drain 10000\ndrain 10000\ndrain 10000\ndrain 10000\ndrain 10000\n#\n",
        "100000 events",
    ),
    (
        "drain 10000\ndrain 10000\ndrain 10000\ndrain 10000\ndrain 10000\nx\ndump fs",
        "line 6",
    ),
    (
        "drain 10000\ndrain 10000\ndrain 10000\ndrain 10000\ndrain 10000\ndump fs\nx",
        "limit",
    ),
    ("update up", "1 events"),
    ("update fs", "line 1"),
    ("update", "line 1"),
    ("update up on", "line 1"),
    ("work up 1000000", "1 events"),
    ("work up 1000001", "line 1"),
    ("commit on", "1 events"),
    ("abort zz", "line 1"),
    ("dump disk", "1 events"),
    ("boot", "line 1"),
];

fn told(alloc: Global, text: &str, plan: &Plan) -> Result<String, Fail> {
    if plan.update.as_slice().len() > 64 {
        return Err(Fail::from("no plan"));
    }
    match read_schedule(alloc, text.as_bytes(), plan) {
        Ok(events) => Ok(format!(in alloc; "{} events", events.len())?),
        Err(error) => Ok(format!(in alloc; "{error}")?),
    }
}

#[test]
fn each_text_gives_its_count_or_refusal(rt: HostRuntime) -> Result<(), Fail> {
    let alloc = rt.alloc();
    let plan = read_plan(alloc, PLAN.as_bytes())?;
    for (text, wanted) in TEXTS {
        assert_eq!(&rt; told(alloc, text, &plan)?.as_str(), wanted);
    }
    Ok(())
}

#[test]
fn one_server_drains_too_often(rt: HostRuntime) -> Result<(), Fail> {
    let alloc = rt.alloc();
    let plan = read_plan(alloc, ONE_SERVER.as_bytes())?;
    let mut text = String::new(alloc);
    for _ in 0..10 {
        text.push_str("drain 10000\n")?;
    }
    assert_eq!(&rt;
        told(alloc, text.as_str(), &plan)?.as_str(),
        "100000 events"
    );
    text.push_str("drain 10000\n")?;
    assert_eq!(&rt; told(alloc, text.as_str(), &plan)?.as_str(), "limit");
    Ok(())
}

#[test]
fn lines_become_their_events(rt: HostRuntime) -> Result<(), Fail> {
    let alloc = rt.alloc();
    let plan = read_plan(alloc, PLAN.as_bytes())?;
    let text =
        b"send 100 disk -7 1 -2\nrun fs 9\ndrain 1\nupdate on\nwork on 3\ncommit up\nabort on\ndump disk\n";
    let events = read_schedule(alloc, text, &plan)?;
    let message = Message {
        source: 100,
        kind: -7,
        arg: [1, -2, 0, 0, 0, 0],
    };
    let wanted = [
        Event::Send {
            client: 100,
            server: 1,
            message,
        },
        Event::Run {
            server: 0,
            ticks: 9,
        },
        Event::Run {
            server: 0,
            ticks: 1_000_000,
        },
        Event::Run {
            server: 1,
            ticks: 1_000_000,
        },
        Event::Update { update: 1 },
        Event::Work {
            update: 1,
            units: 3,
        },
        Event::Commit { update: 0 },
        Event::Abort { update: 1 },
        Event::Dump { server: 1 },
    ];
    assert_eq!(&rt; events.as_slice(), wanted.as_slice());
    Ok(())
}
