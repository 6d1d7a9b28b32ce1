// Services on a program of two globals of 32 bytes and one allocation of ints, with ample memory.
ghost use Rattle.std.specs.Prelude.{◌+◌, ◌<◌, ◌≤◌, ◌^◌, IfOk, length};
ghost use Rattle.c_types.specs.declared.parts.Parts.{Parts as PartsValue};
ghost use Rattle.bm_serve.specs.Held.{HasKnownSites};
ghost use Rattle.bm_serve.specs.Space.{IsSpace};

use bm_code::code::{MachineCode, MachineGlobal, MachineSite};
use bm_code::operation::{Service, Writing};
use bm_frame::frame::Frame;
use bm_frame::writing::step_write;
use bm_mem::{Bytes, VecBytes};
use bm_serve::outbox::Outbox;
use bm_serve::service::{Halt, step_service};
use bm_serve::space::Space;
use c_types::{IntKind, Parts, Sequence, Ty, TypeTable, well_numbered};
use lu_base::{Bytes8, Message, Trap, World};
use std::alloc::Global;
use std::test::Fail;

fn int_types(alloc: Global) -> Result<TypeTable, Fail>
    ensures { IfOk result (λ types. 0 < length types.types) }
{
    let parts = Parts {
        pointer: 4,
        types: Sequence::from_vec(vec![in alloc; Ty::Int(IntKind::Int)]?),
        structs: Sequence::from_vec(Vec::new(alloc)),
        unions: Sequence::from_vec(Vec::new(alloc)),
        signatures: Sequence::from_vec(Vec::new(alloc)),
    };
    if !well_numbered(&parts) {
        return Err("the types are not well numbered".into());
    }
    Ok(TypeTable::build(alloc, parts)?)
}

fn global(alloc: Global) -> Result<MachineGlobal, Fail> {
    let bytes = Bytes8::new(vec![in alloc; 0; 32]?);
    Ok(MachineGlobal {
        name: 0,
        ty: 0,
        bytes,
    })
}

fn program(alloc: Global) -> Result<MachineCode, Fail>
    ensures { IfOk result (λ code. HasKnownSites code) }
{
    let types = int_types(alloc)?;
    let site = MachineSite {
        function: 0,
        ordinal: 0,
        elem: 0,
    };
    Ok(MachineCode {
        names: Sequence::from_vec(Vec::new(alloc)),
        types,
        functions: Sequence::from_vec(Vec::new(alloc)),
        globals: Sequence::from_vec(vec![in alloc; global(alloc)?, global(alloc)?]?),
        sites: Sequence::from_vec(vec![in alloc; site]?),
        filters: 0,
    })
}

/// A service with one word on the stack, and the word that stands there then or why there is none.
type Case = (Service, u64, Result<Option<u64>, Halt>);

/// The index of the first case that does not come so.
fn first_wrong<B: Bytes>(
    cases: &[Case],
    code: &MachineCode,
    world: &World,
    space: &mut Space<B>,
    outbox: &mut Outbox,
    frame: &mut Frame,
) -> Option<usize>
    requires sites { HasKnownSites code.now }
    requires space { IsSpace code.now.types (B.content space.old.memory) space.old.objects space.old.next space.old.used }
    ensures { IsSpace code.now.types (B.content space.new.memory) space.new.objects space.new.next space.new.used }
{
    for (index, (service, word, want)) in cases.iter().enumerate() {
        frame.place = 0;
        frame.stack.clear();
        frame.stack.push(*word);
        let answer = step_service(*service, code, world, space, outbox, frame);
        if answer.map(|_| frame.stack.top()) != *want {
            return Some(index);
        }
    }
    None
}

/// No objects, with the first to stand at an address.
fn fresh_at<B: Bytes>(alloc: Global, next: u64) -> Space<B>
    requires { next < 2 ^ 60 }
    ensures { (types : PartsValue) → IsSpace types (B.content result.memory) result.objects result.next result.used }
{
    let mut space = Space::fresh(alloc);
    space.next = next;
    space
}

/// Stores an int, and says whether it could.
fn put_int<B: Bytes>(
    code: &MachineCode,
    space: &mut Space<B>,
    frame: &mut Frame,
    address: u64,
    int: i32,
) -> bool
    requires { IsSpace code.now.types (B.content space.old.memory) space.old.objects space.old.next space.old.used }
    ensures { IsSpace code.now.types (B.content space.new.memory) space.new.objects space.new.next space.new.used }
{
    let _code = code;
    frame.place = 0;
    frame.stack.clear();
    frame.stack.push((int as i64).cast_unsigned());
    frame.stack.push(address);
    step_write(Writing::Store(4), &mut space.memory, &space.objects, frame).is_ok()
}

/// Stores some ints from an address on, and says whether it could.
fn put_ints<B: Bytes>(
    code: &MachineCode,
    space: &mut Space<B>,
    frame: &mut Frame,
    address: u64,
    ints: &[i32],
) -> bool
    requires address { address < 2 ^ 32 }
    requires space { IsSpace code.now.types (B.content space.old.memory) space.old.objects space.old.next space.old.used }
    ensures { IsSpace code.now.types (B.content space.new.memory) space.new.objects space.new.next space.new.used }
{
    for (index, int) in ints.iter().enumerate() {
        if !put_int(code, space, frame, address + 4 * index as u64, *int) {
            return false;
        }
    }
    true
}

#[test]
fn each_service_answers(rt: HostRuntime) -> Result<(), Fail> {
    let alloc = rt.alloc();
    let code = program(alloc)?;
    let servers = Sequence::from_vec(vec![in alloc; 1, 3]?);
    let world = World { own: 3, servers };
    let mut space: Space<VecBytes> = Space::fresh(alloc);
    let mut outbox = Outbox::fresh(alloc)?;
    let mut frame = Frame::new(alloc)?;
    let bad_code = Err(Halt::Trapped(Trap::BadCode));
    let bad_free = Err(Halt::Trapped(Trap::BadFree));
    let cases = [
        (Service::Send, 100, bad_code),
        (Service::Allocate(1), 1, bad_code),
        (Service::Allocate(0), 8, Ok(Some(0x1000))),
        (Service::Send, 100, bad_code),
        (Service::Allocate(0), 8, Ok(Some(0x1030))),
        (Service::Send, 100, Ok(Some(0))),
        (Service::Free, 0, Ok(None)),
        (Service::Free, 0x1004, bad_free),
        (Service::Free, 0x1000, Ok(None)),
        (Service::Free, 0x1000, bad_free),
        (Service::Allocate(0), 0, Ok(Some(0))),
        (Service::Allocate(0), 1_048_569, Ok(Some(0))),
        (Service::Allocate(0), 1_048_568, Ok(Some(0x1060))),
        (Service::Allocate(0), 1, Ok(Some(0))),
        (
            Service::Panic,
            0xffff_ffff,
            Err(Halt::Trapped(Trap::Panic(-1))),
        ),
        (
            Service::Panic,
            0x1_0000_0005,
            Err(Halt::Trapped(Trap::Panic(5))),
        ),
    ];
    assert_eq!(rt;
        first_wrong(&cases, &code, &world, &mut space, &mut outbox, &mut frame),
        None
    );
    Ok(())
}

#[test]
fn objects_end_where_addresses_do(rt: HostRuntime) -> Result<(), Fail> {
    let alloc = rt.alloc();
    let code = program(alloc)?;
    let servers = Sequence::from_vec(vec![in alloc; 1]?);
    let world = World { own: 1, servers };
    let mut space: Space<VecBytes> = fresh_at(alloc, 0xefff_ffd0);
    let mut outbox = Outbox::fresh(alloc)?;
    let mut frame = Frame::new(alloc)?;
    let cases = [
        (Service::Allocate(0), 9, Ok(Some(0))),
        (Service::Allocate(0), 8, Ok(Some(0xefff_ffd0))),
        (Service::Allocate(0), 1, Ok(Some(0))),
    ];
    assert_eq!(rt;
        first_wrong(&cases, &code, &world, &mut space, &mut outbox, &mut frame),
        None
    );
    Ok(())
}

#[test]
fn sixteen_messages_wait(rt: HostRuntime) -> Result<(), Fail> {
    let alloc = rt.alloc();
    let code = program(alloc)?;
    let servers = Sequence::from_vec(vec![in alloc; 1, 3]?);
    let world = World { own: 3, servers };
    let mut space: Space<VecBytes> = Space::fresh(alloc);
    let mut outbox = Outbox::fresh(alloc)?;
    let mut frame = Frame::new(alloc)?;
    let objects = [
        (Service::Allocate(0), 8, Ok(Some(0x1000))),
        (Service::Allocate(0), 8, Ok(Some(0x1030))),
    ];
    assert_eq!(rt;
        first_wrong(&objects, &code, &world, &mut space, &mut outbox, &mut frame),
        None
    );
    let ints = [77, -2, 1, 256, -1, i32::MAX, i32::MIN, 6];
    assert!(rt; put_ints(&code, &mut space, &mut frame, 0x1030, &ints));
    let nobody = Ok(Some(u64::MAX - 1));
    let sends = [
        (Service::Send, 0, nobody),
        (Service::Send, 2, nobody),
        (Service::Send, 99, nobody),
        (Service::Send, 1000, nobody),
        (Service::Send, 0x1_0000_0064, nobody),
        (Service::Send, u64::MAX, nobody),
        (Service::Send, 100, Ok(Some(0))),
        (Service::Send, 999, Ok(Some(0))),
        (Service::Send, 1, Ok(Some(0))),
        (Service::Send, 3, Ok(Some(0))),
    ];
    assert_eq!(rt;
        first_wrong(&sends, &code, &world, &mut space, &mut outbox, &mut frame),
        None
    );
    let message = Message {
        source: 3,
        kind: -2,
        arg: [1, 256, -1, i32::MAX, i32::MIN, 6],
    };
    let sent = [(100, message), (999, message), (1, message), (3, message)];
    assert_eq!(rt; outbox.as_slice(), sent.as_slice());
    let more = [(Service::Send, 100, Ok(Some(0))); 12];
    assert_eq!(rt;
        first_wrong(&more, &code, &world, &mut space, &mut outbox, &mut frame),
        None
    );
    let full = [
        (Service::Send, 100, Ok(Some(u64::MAX))),
        (Service::Send, 99, nobody),
    ];
    assert_eq!(rt;
        first_wrong(&full, &code, &world, &mut space, &mut outbox, &mut frame),
        None
    );
    outbox.clear();
    assert!(rt; outbox.is_empty());
    Ok(())
}
