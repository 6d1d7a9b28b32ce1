//! The system.

ghost use Rattle.std.specs.Prelude.{◌≡◌, ◌<◌, length, map, IfOk, OnOk, IfSome, slice_get};
ghost use Rattle.sys_mail.specs.Room.{cell_values};
ghost use Rattle.sys_run.specs.Start.{runner_at, start_runner, start_cell};
ghost use Rattle.sys_run.specs.Runs.{machines_of};
ghost use Rattle.sys_run.specs.Events.{IsWithin, IsStep};

use crate::events::happen;
use crate::runner::{Runner, Running};
use bm_mem::{Bytes, VecBytes};
use cg_program::code::Code;
use cg_server::Server;
use lu_base::{Memory, Message, Name};
use lu_lines::Notes;
use std::alloc::Global;
use std::marker::Model;
use sys_mail::Cell;
use sys_world::{Event, Happened};

/// A server's name, its number, the version that it runs, and that version's code.
#[derive(Clone, Copy)]
pub struct ServerCode<'a> {
    pub name: &'a Name,
    pub number: i32,
    pub version: u32,
    pub code: &'a Code,
}

/// Servers, each with its process, its inbox and its history. Clauses see the processes and the cells.
#[derive(Drop)]
pub struct System<'a> {
    alloc: Global,
    runners: Vec<Runner<'a>>,
    cells: Vec<Cell>,
}

impl<'a> Model for System<'a> {
    ghost use Rattle.std.specs.Prelude.{◌≡◌, length};
    ghost use Rattle.std.specs.Coded.{codes};
    ghost use Rattle.bm_cpu.specs.State.{content_code};
    ghost use Rattle.cg_program.specs.Codes.{source_code};
    ghost use Rattle.sys_run.specs.Runs.{SystemValue};

    ghost Value = { SystemValue };

    ghost coded = { Prim.hlevel (codes, content_code, source_code) };

    ghost view = { λ s. record { runners = s.runners.items; cells = s.cells.items } };

    ghost invariant = { λ s. length s.runners.items ≡ length s.cells.items };
}

impl<'a> System<'a> {
    /// The servers in this order before their boot.
    pub fn new(alloc: Global, servers: &[ServerCode<'a>]) -> Result<Self, Memory>
        ensures runners { IfOk result (λ system.
            system.runners ≡ map (start_runner servers.now) servers.now) }
        ensures cells { IfOk result (λ system. cell_values system.cells ≡ map start_cell servers.now) }
    {
        let numbers = numbers_of(alloc, servers)?;
        let mut runners = Vec::new(alloc);
        let mut cells = Vec::new(alloc);
        for server in servers {
            runners.push(make_runner(alloc, server, numbers.as_slice())?)?;
            cells.push(make_cell(alloc, server)?)?;
        }
        Ok(System {
            alloc,
            runners,
            cells,
        })
    }

    /// One event; what it tells goes behind the notes. On `Memory` the system and the notes are to be dropped.
    pub fn event(&mut self, event: &Event, out: &mut Notes) -> Result<(), Memory>
        requires { IsWithin (length self.old.runners) event.now }
        ensures step { OnOk result (IsStep event.now
            (machines_of self.old.runners self.old.cells out.old) (machines_of self.new.runners self.new.cells out.new)) }
        ensures count { length self.new.runners ≡ length self.old.runners }
    {
        happen(self.alloc, &mut self.runners, &mut self.cells, event, out)
    }

    /// How many servers there are.
    pub fn count(&self) -> usize
        ensures runners { result ≡ length self.now.runners }
        ensures cells { result ≡ length self.now.cells }
    {
        self.runners.len()
    }

    /// All messages that were ever put into the inbox of the server at a place. It takes no memory.
    pub fn arrived(&self, server: usize) -> &[Message]
        requires { server < length self.now.runners }
        ensures { IfSome (slice_get self.now.cells server) (λ cell. result.now ≡ cell.value.arrived) }
    {
        self.cells[server].arrived()
    }

    /// What the server at a place sent in its boot and in its deliveries, each message with its destination, in order. It takes
    /// no memory.
    pub fn sent(&self, server: usize) -> &[(i32, Message)]
        requires { server < length self.now.runners }
        ensures { IfSome (slice_get self.now.cells server) (λ cell. result.now ≡ cell.value.sent) }
    {
        self.cells[server].sent()
    }

    /// What happened to the server at a place, in order. It takes no memory.
    pub fn history(&self, server: usize) -> &[Happened]
        requires { server < length self.now.runners }
        ensures { IfSome (slice_get self.now.cells server) (λ cell. result.now ≡ cell.value.history) }
    {
        self.cells[server].history()
    }

    /// The process that runs the server at a place, of a dead server the one that trapped. It takes no memory.
    pub fn server(&self, server: usize) -> &Running<'a>
        requires { server < length self.now.runners }
        ensures { IfSome (slice_get self.now.runners server) (λ runner. result.now ≡ runner.server) }
    {
        &self.runners[server].server
    }
}

fn numbers_of(alloc: Global, servers: &[ServerCode<'_>]) -> Result<Vec<i32>, Memory>
    ensures { IfOk result (λ numbers. numbers.items ≡ map (λ s. s.number) servers.now) }
{
    let mut numbers = Vec::new(alloc);
    for server in servers {
        numbers.push(server.number)?;
    }
    Ok(numbers)
}

// A server's process before its boot.
fn make_runner<'a>(
    alloc: Global,
    server: &ServerCode<'a>,
    numbers: &[i32],
) -> Result<Runner<'a>, Memory>
    ensures { IfOk result (λ runner. runner ≡ runner_at server.now numbers.now) }
{
    let mem = VecBytes::fresh(alloc);
    Ok(Runner {
        server: Server::new(alloc, server.code, server.number, numbers, mem)?,
        message: None,
    })
}

// A server's cell before its boot.
fn make_cell(alloc: Global, server: &ServerCode<'_>) -> Result<Cell, Memory>
    ensures { IfOk result (λ cell. cell.value ≡ start_cell server.now) }
{
    let name = server.name.copy(alloc)?;
    Ok(Cell::fresh(alloc, name, server.number, server.version))
}
