// The lines of a transcript.

use lu_base::{Bytes8, Memory, Name, Trap};
use lu_lines::{Note, Notes, Reason, line_of};
use std::alloc::Global;
use std::test::Fail;

fn name(alloc: Global, text: &str) -> Result<Name, Memory> {
    Ok(Name::new(String::from_str(alloc, text)?))
}

// Whether the note's line is this text.
fn shows(alloc: Global, note: Note, text: &str) -> Result<bool, Memory> {
    Ok(line_of(alloc, &note)?.as_slice() == text.as_bytes())
}

fn shows_reply(alloc: Global, kind: i32, arg: [i32; 6], text: &str) -> Result<bool, Memory> {
    let note = Note::Reply {
        server: name(alloc, "fs")?,
        client: 101,
        kind,
        arg,
    };
    shows(alloc, note, text)
}

fn shows_object(
    alloc: Global,
    address: u32,
    size: u32,
    bytes: &[u8],
    text: &str,
) -> Result<bool, Memory> {
    let note = Note::Object {
        address,
        name: name(alloc, "mk#0:1")?,
        size,
        bytes: Bytes8::new(Vec::from_slice(alloc, bytes)?),
    };
    shows(alloc, note, text)
}

fn shows_reason(alloc: Global, reason: Reason, text: &str) -> Result<bool, Memory> {
    let update = name(alloc, "u")?;
    shows(alloc, Note::Refused { update, reason }, text)
}

#[test]
fn lines_of_replies_and_objects(rt: HostRuntime) -> Result<(), Fail> {
    let alloc = rt.alloc();
    for (kind, arg, text) in [
        (101, [5, 0, 0, 0, 0, 0], "reply fs 101 101 5\n"),
        (-1, [0; 6], "reply fs 101 -1\n"),
        (
            i32::MIN,
            [0, -2, 0, i32::MAX, 0, 0],
            "reply fs 101 -2147483648 0 -2 0 2147483647\n",
        ),
    ] {
        assert!(rt; shows_reply(alloc, kind, arg, text)?, "{text}");
    }
    for (address, size, bytes, text) in [
        (
            0x1080,
            8,
            [3, 0, 0, 0, 0xc0, 0x10, 0, 0],
            "object 00001080 mk#0:1 8 03000000c010\n",
        ),
        (
            0xefff_fff0,
            u32::MAX,
            [0; 8],
            "object effffff0 mk#0:1 4294967295 -\n",
        ),
    ] {
        assert!(rt; shows_object(alloc, address, size, &bytes, text)?, "{text}");
    }
    assert!(rt; shows_object(alloc, 0, 0, &[], "object 00000000 mk#0:1 0 -\n")?);
    Ok(())
}

#[test]
fn lines_of_servers(rt: HostRuntime) -> Result<(), Fail> {
    let alloc = rt.alloc();
    let note = Note::Boot {
        server: name(alloc, "fs")?,
    };
    assert!(rt; shows(alloc, note, "boot fs\n")?);
    let note = Note::Trap {
        server: name(alloc, "fs")?,
        trap: Trap::Panic(i32::MIN),
    };
    assert!(rt; shows(alloc, note, "trap fs Panic -2147483648\n")?);
    let note = Note::Dump {
        server: name(alloc, "fs")?,
        objects: 7,
    };
    assert!(rt; shows(alloc, note, "dump fs 7\n")?);
    let note = Note::DumpBusy {
        server: name(alloc, "fs")?,
    };
    assert!(rt; shows(alloc, note, "dump fs busy\n")?);
    let note = Note::DumpDead {
        server: name(alloc, "fs")?,
    };
    assert!(rt; shows(alloc, note, "dump fs dead\n")?);
    let note = Note::End;
    assert!(rt; shows(alloc, note, "end\n")?);
    Ok(())
}

#[test]
fn lines_of_updates_on_the_way(rt: HostRuntime) -> Result<(), Fail> {
    let alloc = rt.alloc();
    let note = Note::Waiting {
        update: name(alloc, "u")?,
    };
    assert!(rt; shows(alloc, note, "update u waiting\n")?);
    let note = Note::Held {
        update: name(alloc, "u")?,
    };
    assert!(rt; shows(alloc, note, "update u held\n")?);
    let note = Note::Walked {
        update: name(alloc, "u")?,
        objects: u64::MAX,
    };
    assert!(rt; shows(alloc, note, "update u walked 18446744073709551615\n")?);
    let note = Note::Moved {
        update: name(alloc, "u")?,
        objects: 0,
    };
    assert!(rt; shows(alloc, note, "update u moved 0\n")?);
    let note = Note::Handled {
        update: name(alloc, "u")?,
        calls: 3,
    };
    assert!(rt; shows(alloc, note, "update u handled 3\n")?);
    let note = Note::Ready {
        update: name(alloc, "u")?,
    };
    assert!(rt; shows(alloc, note, "update u ready\n")?);
    Ok(())
}

#[test]
fn lines_of_updates_at_their_end(rt: HostRuntime) -> Result<(), Fail> {
    let alloc = rt.alloc();
    let note = Note::Committed {
        update: name(alloc, "u")?,
    };
    assert!(rt; shows(alloc, note, "update u committed\n")?);
    let note = Note::NotReady {
        update: name(alloc, "u")?,
    };
    assert!(rt; shows(alloc, note, "update u not ready\n")?);
    let note = Note::NotActive {
        update: name(alloc, "u")?,
    };
    assert!(rt; shows(alloc, note, "update u not active\n")?);
    let note = Note::WaitingAtEnd {
        update: name(alloc, "u")?,
    };
    assert!(rt; shows(alloc, note, "update u waiting at end\n")?);
    let note = Note::MovingAtEnd {
        update: name(alloc, "u")?,
    };
    assert!(rt; shows(alloc, note, "update u moving at end\n")?);
    let note = Note::ReadyAtEnd {
        update: name(alloc, "u")?,
    };
    assert!(rt; shows(alloc, note, "update u ready at end\n")?);
    Ok(())
}

#[test]
fn reasons_of_states(rt: HostRuntime) -> Result<(), Fail> {
    let alloc = rt.alloc();
    let reason = Reason::Dead {
        trap: Trap::DivZero,
    };
    assert!(rt; shows_reason(alloc, reason, "update u refused Dead DivZero\n")?);
    let reason = Reason::Busy;
    assert!(rt; shows_reason(alloc, reason, "update u refused Busy\n")?);
    let reason = Reason::Version { version: 1_000_000 };
    assert!(rt; shows_reason(alloc, reason, "update u refused Version 1000000\n")?);
    let reason = Reason::FilterTrap {
        trap: Trap::BadShift,
    };
    assert!(rt; shows_reason(alloc, reason, "update u refused FilterTrap BadShift\n")?);
    let reason = Reason::NotQuiet { deliveries: 16 };
    assert!(rt; shows_reason(alloc, reason, "update u refused NotQuiet 16\n")?);
    let reason = Reason::Aborted { units: 0 };
    assert!(rt; shows_reason(alloc, reason, "update u refused Aborted 0\n")?);
    let reason = Reason::HandlerTrap {
        call: 2,
        trap: Trap::Budget,
    };
    assert!(rt; shows_reason(alloc, reason, "update u refused HandlerTrap 2 Budget\n")?);
    let reason = Reason::NoMemory { unit: 9 };
    assert!(rt; shows_reason(alloc, reason, "update u refused NoMemory 9\n")?);
    Ok(())
}

#[test]
fn reasons_of_places(rt: HostRuntime) -> Result<(), Fail> {
    let alloc = rt.alloc();
    let reason = Reason::Shape {
        path: name(alloc, "n")?,
    };
    assert!(rt; shows_reason(alloc, reason, "update u refused Shape n\n")?);
    let reason = Reason::HandledInUnion {
        path: name(alloc, "it.v")?,
    };
    assert!(rt; shows_reason(alloc, reason, "update u refused HandledInUnion it.v\n")?);
    let reason = Reason::ArrayCut {
        path: name(alloc, "t[4]")?,
    };
    assert!(rt; shows_reason(alloc, reason, "update u refused ArrayCut t[4]\n")?);
    let reason = Reason::HeapLimit {
        object: name(alloc, "init#0:0")?,
    };
    assert!(rt; shows_reason(alloc, reason, "update u refused HeapLimit init#0:0\n")?);
    let reason = Reason::Narrow {
        path: name(alloc, "n")?,
        value: 18_446_744_073_709_551_615,
    };
    assert!(rt;
        shows_reason(
            alloc,
            reason,
            "update u refused Narrow n 18446744073709551615\n"
        )?
    );
    let reason = Reason::Narrow {
        path: name(alloc, "n")?,
        value: -9_223_372_036_854_775_808,
    };
    assert!(rt;
        shows_reason(
            alloc,
            reason,
            "update u refused Narrow n -9223372036854775808\n"
        )?
    );
    Ok(())
}

#[test]
fn reasons_of_pairs(rt: HostRuntime) -> Result<(), Fail> {
    let alloc = rt.alloc();
    let reason = Reason::MemberGone {
        path: name(alloc, "it.v")?,
        member: name(alloc, "p")?,
    };
    assert!(rt; shows_reason(alloc, reason, "update u refused MemberGone it.v p\n")?);
    let reason = Reason::LostFunction {
        path: name(alloc, "f")?,
        function: name(alloc, "g")?,
    };
    assert!(rt; shows_reason(alloc, reason, "update u refused LostFunction f g\n")?);
    let reason = Reason::UnpairedSite {
        path: name(alloc, "head")?,
        site: name(alloc, "mk#0")?,
    };
    assert!(rt; shows_reason(alloc, reason, "update u refused UnpairedSite head mk#0\n")?);
    Ok(())
}

#[test]
fn reasons_of_targets(rt: HostRuntime) -> Result<(), Fail> {
    let alloc = rt.alloc();
    let reason = Reason::Dangling {
        path: name(alloc, "p")?,
        object: name(alloc, "init#0:0")?,
        offset: 0,
    };
    assert!(rt; shows_reason(alloc, reason, "update u refused Dangling p init#0:0+0\n")?);
    let reason = Reason::LostTarget {
        path: name(alloc, "lim")?,
        object: name(alloc, "tab")?,
        offset: 32,
    };
    assert!(rt; shows_reason(alloc, reason, "update u refused LostTarget lim tab+32\n")?);
    let reason = Reason::NoPlace {
        path: name(alloc, "c")?,
        object: name(alloc, "x")?,
        offset: 1,
    };
    assert!(rt; shows_reason(alloc, reason, "update u refused NoPlace c x+1\n")?);
    let reason = Reason::Ambiguous {
        path: name(alloc, "p")?,
        object: name(alloc, "g")?,
        offset: u32::MAX,
    };
    assert!(rt; shows_reason(alloc, reason, "update u refused Ambiguous p g+4294967295\n")?);
    Ok(())
}

#[test]
fn notes_have_room(rt: HostRuntime) -> Result<(), Fail> {
    let mut notes = Notes::fresh(rt.alloc());
    notes.reserve(2)?;
    notes.push(Note::End);
    notes.push(Note::End);
    assert_eq!(rt; notes.list().len(), 2);
    Ok(())
}
