//! The events.

ghost use Rattle.std.specs.Prelude.{◌≡◌, length, OnOk};
ghost use Rattle.sys_run.specs.Runs.{machines_of};
ghost use Rattle.sys_run.specs.Events.{IsWithin, IsStep};

use crate::kernel::{boot_all, dump, give_ticks, take_next};
use crate::runner::Runner;
use lu_base::{Memory, Message};
use lu_lines::{Note, Notes};
use std::alloc::Global;
use sys_mail::{Cell, put_at, tell};
use sys_world::Event;

/// What an event of no update makes of the processes, of the cells and of what was told.
pub fn happen(
    alloc: Global,
    runners: &mut [Runner<'_>],
    cells: &mut [Cell],
    event: &Event,
    out: &mut Notes,
) -> Result<(), Memory>
    requires same { length runners.old ≡ length cells.old }
    requires event { IsWithin (length runners.old) event.now }
    ensures { OnOk result (IsStep event.now
        (machines_of runners.old cells.old out.old) (machines_of runners.new cells.new out.new)) }
{
    match event {
        Event::Boot => boot_all(alloc, runners, cells, out),
        Event::Send {
            client,
            server,
            message,
        } => {
            let message = Message {
                source: *client,
                kind: message.kind,
                arg: message.arg,
            };
            put_at(alloc, cells, out, *server, message)
        }
        Event::Run { server, ticks } => {
            take_next(alloc, runners, cells, *server);
            give_ticks(alloc, runners, cells, out, *server, *ticks)
        }
        Event::Dump { server } => dump(alloc, runners, cells, out, *server),
        Event::Finish => tell(out, Note::End),
        Event::Update { .. } | Event::Work { .. } | Event::Commit { .. } | Event::Abort { .. } =>
            unreachable!(),
    }
}
