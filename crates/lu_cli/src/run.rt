//! A run of the servers of a setup.

ghost use Rattle.std.specs.Prelude.{◌≡◌, [], length, IfSome};
ghost use Rattle.lu_spec.specs.Fault.{IsCaused};
ghost use Rattle.lu_load.specs.Setups.{KeepsSetup};
ghost use Rattle.sys_run.specs.Events.{IsWithin};
ghost use Rattle.lu_cli.specs.Told.{event_at};
ghost use Rattle.lu_cli.specs.Ran.{StepWrote, RunWrote};

use crate::servers::servers_of;
use crate::write::{Stopped, write_notes};
use lu_base::{Memory, Sink};
use lu_lines::Notes;
use lu_load::Setup;
use sched_file::Event;
use std::alloc::Global;
use sys_run::System;

// The boot, the events, and the end of the run.
fn event_at(events: &[Event], n: usize) -> Event
    ensures { result ≡ event_at events.now n }
{
    if n == 0 {
        return Event::Boot;
    }
    match events.get(n - 1) {
        Some(event) => *event,
        None => Event::Finish,
    }
}

// One event, and the lines of what it tells.
fn step<K: Sink>(
    alloc: Global,
    system: &mut System<'_>,
    event: &Event,
    sink: &mut K,
) -> Result<(), Stopped>
    requires { IsWithin (length system.old.runners) event.now }
    ensures count { length system.new.runners ≡ length system.old.runners }
    ensures cause { IsCaused Stopped.WriteFault (K.faults sink.old) (K.faults sink.new) result }
    ensures wrote { IfSome (K.wrote sink.old) (λ before.
        StepWrote event.now system.old system.new before (K.wrote sink.new) result) }
{
    let mut notes = Notes::fresh(alloc);
    match system.event(event, &mut notes) {
        Ok(()) => write_notes(alloc, notes.list(), sink),
        Err(Memory) => Err(Stopped::Memory),
    }
}

/// Runs the servers of a setup without updates by its events, and writes the lines of what they tell.
pub fn run<K: Sink>(alloc: Global, setup: &Setup, sink: &mut K) -> Result<(), Stopped>
    requires setup { KeepsSetup setup.now }
    requires plain { setup.now.plan.update ≡ [] }
    ensures cause { IsCaused Stopped.WriteFault (K.faults sink.old) (K.faults sink.new) result }
    ensures wrote { IfSome (K.wrote sink.old) (λ before. RunWrote setup.now before (K.wrote sink.new) result) }
{
    let servers = match servers_of(alloc, setup) {
        Ok(servers) => servers,
        Err(Memory) => return Err(Stopped::Memory),
    };
    let mut system = match System::new(alloc, servers.as_slice()) {
        Ok(system) => system,
        Err(Memory) => return Err(Stopped::Memory),
    };
    let events = setup.events.as_slice();
    for n in 0..events.len() + 2 {
        if let Err(stopped) = step(alloc, &mut system, &event_at(events, n), sink) {
            return Err(stopped);
        }
    }
    Ok(())
}
