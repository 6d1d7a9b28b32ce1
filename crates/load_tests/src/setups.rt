// What files stand for.

use crate::shelves::{SUM, setup_of};
use lu_base::Message;
use sched_file::Event;
use std::test::Fail;

const PLAN: &str = r#"schedule = "s"
[[server]]
name = "p"
number = 7
source = "p.c"
[[server]]
name = "q"
number = 2
source = "q.c"
pointers = "wide"
[[update]]
name = "u"
server = "p"
from = 1
to = 2
source = "u.c"
"#;

const POINTER: &str = "int *p; void init(void) { } void on_message(void) { }";

const EVENTS: &str = "send 101 q 1 5 -6\ndrain 1\nupdate u\nwork u 10\ncommit u\ndump p\n";

fn expected() -> [Event; 7] {
    let message = Message {
        source: 101,
        kind: 1,
        arg: [5, -6, 0, 0, 0, 0],
    };
    [
        Event::Send {
            client: 101,
            server: 1,
            message,
        },
        Event::Run {
            server: 0,
            ticks: 1_000_000,
        },
        Event::Run {
            server: 1,
            ticks: 1_000_000,
        },
        Event::Update { update: 0 },
        Event::Work {
            update: 0,
            units: 10,
        },
        Event::Commit { update: 0 },
        Event::Dump { server: 0 },
    ]
}

#[test]
fn files_stand_for_a_setup(rt: HostRuntime) -> Result<(), Fail> {
    let alloc = rt.alloc();
    let files = [
        ("u.c", POINTER),
        ("s", EVENTS),
        ("q.c", POINTER),
        ("p.c", SUM),
        ("plan", PLAN),
    ];
    let setup = setup_of(alloc, &files)?;
    assert_eq!(rt; setup.numbers.as_slice(), [7, 2].as_slice());
    assert_eq!(rt; setup.events.as_slice(), expected().as_slice());
    let mut sizes = Vec::new(alloc);
    for code in setup.codes.as_slice() {
        let program = code.program();
        if let Some(global) = program.globals.as_slice().last() {
            sizes.push((
                program.globals.as_slice().len(),
                program.types.size_of(global.ty),
            ))?;
        }
    }
    assert_eq!(rt; sizes.as_slice(), [(3, 4), (3, 8), (3, 4)].as_slice());
    Ok(())
}
