//! What each event makes of the processes and of the cells.

ghost use Rattle.std.specs.Prelude.{◌≡◌, ◌<◌, ◌++◌, false, List, length, OnOk, IfOk, IfSome};
ghost use Rattle.lu_lines.specs.declared.note.Note.{Note};
ghost use Rattle.mk_queue.specs.Held.{next_message};
ghost use Rattle.sys_mail.specs.Room.{mail_of};
ghost use Rattle.sys_run.specs.Runs.{machines_of, machines_with, Lasts, delivery_mail, init_mail};
ghost use Rattle.sys_run.specs.Events.{no_hold, take_next, GivesTicks, IsBooted, AreBooted, live_dump, dump_of, dump_event};

use crate::runner::{Runner, begin, in_hand, is_idle, leave, run, run_init};
use cg_server::Stop;
use lu_base::{Memory, Message, Name, Sequence, Trap};
use lu_lines::{Note, Notes};
use mk_queue::Hold;
use std::alloc::Global;
use sys_mail::{Cell, boot, die, die_in_delivery, end_delivery, tell};

// The place of the next message of a server that no update holds.
fn next_of(alloc: Global, cell: &Cell) -> Option<usize>
    ensures place { result ≡ next_message no_hold cell.now.value.inbox }
    ensures within { IfSome result (λ place. place < length cell.now.value.inbox) }
{
    let hold = Hold {
        active: false,
        kinds: Sequence::from_vec(Vec::new(alloc)),
    };
    cell.inbox().next(&hold)
}

/// A server that isn't dead and of which no call runs takes its next message, if there is one.
pub fn take_next(alloc: Global, runners: &mut [Runner<'_>], cells: &mut [Cell], place: usize)
    requires runner { place < length runners.old }
    requires cell { place < length cells.old }
    ensures { (told : List Note) →
        machines_with runners.new cells.new told ≡ take_next place (machines_with runners.old cells.old told) }
{
    if !is_idle(&runners[place], &cells[place]) {
        return;
    }
    let Some(at) = next_of(alloc, &cells[place]) else {
        return;
    };
    let message = cells[place].take(at);
    begin(&mut runners[place], &message);
}

// What the run of a delivery leaves of the mail.
fn end_run(
    alloc: Global,
    cells: &mut [Cell],
    out: &mut Notes,
    place: usize,
    message: Message,
    sends: &[(i32, Message)],
    stop: Stop,
) -> Result<(), Memory>
    requires { place < length cells.old }
    ensures mail { OnOk result (
        mail_of cells.new out.new ≡ delivery_mail place message sends.now stop (mail_of cells.old out.old)) }
    ensures lasts { OnOk result (Lasts stop) }
{
    match stop {
        Stop::Returned(_) => end_delivery(alloc, cells, out, place, message, sends),
        Stop::Trapped(trap) => die_in_delivery(alloc, cells, out, place, message, trap),
        Stop::Paused => Ok(()),
        Stop::Memory => Err(Memory),
    }
}

/// The server at a place gets so many ticks, if the delivery of a message runs.
pub fn give_ticks(
    alloc: Global,
    runners: &mut [Runner<'_>],
    cells: &mut [Cell],
    out: &mut Notes,
    place: usize,
    ticks: u32,
) -> Result<(), Memory>
    requires runner { place < length runners.old }
    requires cell { place < length cells.old }
    ensures { OnOk result (GivesTicks place ticks
        (machines_of runners.old cells.old out.old) (machines_of runners.new cells.new out.new)) }
{
    let Some(message) = in_hand(&runners[place]) else {
        return Ok(());
    };
    let stop = run(&mut runners[place], ticks);
    let sends = runners[place].server.outbox();
    end_run(alloc, cells, out, place, message, sends, stop)?;
    leave(&mut runners[place], stop);
    Ok(())
}

// What the run of `init` leaves of the mail.
fn end_init(
    alloc: Global,
    cells: &mut [Cell],
    out: &mut Notes,
    place: usize,
    sends: &[(i32, Message)],
    stop: Stop,
) -> Result<(), Memory>
    requires { place < length cells.old }
    ensures mail { OnOk result (
        mail_of cells.new out.new ≡ init_mail place sends.now stop (mail_of cells.old out.old)) }
    ensures lasts { OnOk result (Lasts stop) }
{
    match stop {
        Stop::Returned(_) => boot(alloc, cells, out, place, sends),
        Stop::Trapped(trap) => die(alloc, cells, out, place, trap),
        Stop::Paused => Ok(()),
        Stop::Memory => Err(Memory),
    }
}

/// The server at a place boots, if it isn't dead and no call of it runs.
pub fn boot_server(
    alloc: Global,
    runners: &mut [Runner<'_>],
    cells: &mut [Cell],
    out: &mut Notes,
    place: usize,
) -> Result<(), Memory>
    requires runner { place < length runners.old }
    requires cell { place < length cells.old }
    ensures { OnOk result (IsBooted place
        (machines_of runners.old cells.old out.old) (machines_of runners.new cells.new out.new)) }
{
    if !is_idle(&runners[place], &cells[place]) {
        return Ok(());
    }
    let stop = run_init(&mut runners[place]);
    let sends = runners[place].server.outbox();
    end_init(alloc, cells, out, place, sends, stop)?;
    leave(&mut runners[place], stop);
    Ok(())
}

/// The servers boot in order.
pub fn boot_all(
    alloc: Global,
    runners: &mut [Runner<'_>],
    cells: &mut [Cell],
    out: &mut Notes,
) -> Result<(), Memory>
    requires { length runners.old ≡ length cells.old }
    ensures { OnOk result (AreBooted (length runners.old)
        (machines_of runners.old cells.old out.old) (machines_of runners.new cells.new out.new)) }
{
    for place in 0..runners.len() {
        boot_server(alloc, runners, cells, out, place)?;
    }
    Ok(())
}

// What is told of a server that isn't dead.
fn dump_live(alloc: Global, runner: &Runner<'_>, name: &Name, out: &mut Notes) -> Result<(), Memory>
    ensures { OnOk result (out.new.list ≡ out.old.list ++ live_dump runner.now name.now) }
{
    if runner.server.idle() {
        return runner.server.dump(alloc, name, out);
    }
    let server = name.copy(alloc)?;
    tell(out, Note::DumpBusy { server })
}

// What is told of a server.
fn dump_one(
    alloc: Global,
    runner: &Runner<'_>,
    name: &Name,
    trap: Option<Trap>,
    out: &mut Notes,
) -> Result<(), Memory>
    ensures { OnOk result (out.new.list ≡ out.old.list ++ dump_of runner.now name.now trap) }
{
    match trap {
        None => dump_live(alloc, runner, name, out),
        Some(_) => {
            let server = name.copy(alloc)?;
            tell(out, Note::DumpDead { server })
        }
    }
}

/// The live objects of the server at a place are told, if it isn't dead and no call of it runs.
pub fn dump(
    alloc: Global,
    runners: &[Runner<'_>],
    cells: &[Cell],
    out: &mut Notes,
    place: usize,
) -> Result<(), Memory>
    requires runner { place < length runners.now }
    requires cell { place < length cells.now }
    ensures { OnOk result (machines_of runners.now cells.now out.new
        ≡ dump_event place (machines_of runners.now cells.now out.old)) }
{
    let cell = &cells[place];
    dump_one(alloc, &runners[place], cell.name(), cell.trap(), out)
}
