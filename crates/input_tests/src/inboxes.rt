use lu_base::{Memory, Message, Sequence};
use mk_queue::{Hold, Inbox};
use std::alloc::Global;

fn message(source: i32, kind: i32) -> Message {
    Message {
        source,
        kind,
        arg: [0; 6],
    }
}

fn filled(alloc: Global) -> Result<Inbox, Memory> {
    let mut inbox = Inbox::fresh(alloc);
    for (source, kind) in [(100, 1), (101, 9), (100, 9)] {
        inbox.push(message(source, kind))?;
    }
    Ok(inbox)
}

#[test]
fn holds_back_by_kind_and_source(rt: HostRuntime) -> Result<(), Memory> {
    let alloc = rt.alloc();
    let kinds = vec![in alloc; 1]?;
    let hold = Hold {
        active: true,
        kinds: Sequence::from_vec(kinds),
    };
    let mut inbox = filled(alloc)?;
    assert_eq!(&rt; inbox.next(&hold), Some(1));
    assert!(&rt; inbox.len() == 3);
    let taken = inbox.take(1);
    assert_eq!(&rt; taken, message(101, 9));
    assert_eq!(&rt; inbox.next(&hold), None);
    assert!(&rt; inbox.len() == 2);
    Ok(())
}

#[test]
fn holds_nothing_back_while_inactive(rt: HostRuntime) -> Result<(), Memory> {
    let alloc = rt.alloc();
    let kinds = vec![in alloc; 1]?;
    let hold = Hold {
        active: false,
        kinds: Sequence::from_vec(kinds),
    };
    let mut inbox = filled(alloc)?;
    for wanted in [message(100, 1), message(101, 9), message(100, 9)] {
        assert_eq!(&rt; inbox.next(&hold), Some(0));
        assert!(&rt; inbox.len() > 0);
        let taken = inbox.take(0);
        assert_eq!(&rt; taken, wanted);
    }
    assert_eq!(&rt; inbox.next(&hold), None);
    Ok(())
}

/// So many messages of a held kind, from two clients by turns.
fn held(alloc: Global, count: usize) -> Result<Inbox, Memory> {
    let mut inbox = Inbox::fresh(alloc);
    for n in 0..count {
        let client = if n % 2 == 0 { 100 } else { 101 };
        inbox.push(message(client, 1))?;
    }
    Ok(inbox)
}

// Each call looks at two messages alone, so that this takes no longer than the pushes.
#[test]
fn fifty_thousand_held_messages_are_looked_over_as_often(rt: HostRuntime) -> Result<(), Memory> {
    let alloc = rt.alloc();
    let kinds = vec![in alloc; 1]?;
    let hold = Hold {
        active: true,
        kinds: Sequence::from_vec(kinds),
    };
    let inbox = held(alloc, 50_000)?;
    assert!(&rt; inbox.len() == 50_000);
    for _ in 0..50_000 {
        assert_eq!(&rt; inbox.next(&hold), None);
    }
    Ok(())
}
