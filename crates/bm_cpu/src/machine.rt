//! The machine: a process in memory, with the code that it runs.

ghost use Rattle.std.specs.Prelude.{◌≡◌, ◌<◌, ◌^◌, true, false, [], None, length, All, IfOk, OnOk, OnErr};
ghost use Rattle.std.specs.FinMap.{empty};
ghost use Rattle.bm_mem.specs.Content.{IsInside, IsWritten};
ghost use Rattle.bm_objects.specs.Table.{end_of, next_address};
ghost use Rattle.bm_code.specs.Mapped.{IsMapped, AreKnown};
ghost use Rattle.bm_run.specs.declared.calls.Mode.TheVariants as M;
ghost use Rattle.bm_code.specs.Ran.{IsRun};
ghost use Rattle.bm_code.specs.Services.{heap_bytes, is_heap_object, with_object, without_object};
ghost use Rattle.bm_code.specs.Accepted.{IsAccepted, HasParameters};
ghost use Rattle.bm_code.specs.Globals.{idle_process, initial_process};
ghost use Rattle.bm_code.specs.Calls.{is_running, settled, started, with_content, without_sends};
ghost use Rattle.bm_cpu.specs.State.{with_process, no_world};

use crate::objects::{heap_bytes, next_address, put_globals, put_object};
use bm_code::code::MachineCode;
use bm_code::stop::Stop;
use bm_frame::frame::Frame;
use bm_mem::Bytes;
use bm_objects::{Objects, Row};
use bm_run::callers::Callers;
use bm_run::calls::{Calls, Mode};
use bm_serve::outbox::Outbox;
use bm_serve::space::{Space, free};
use bm_step::run::run;
use c_types::Sequence;
use lu_base::limits::{CALL_TICKS, FIRST_ADDRESS};
use lu_base::{Memory, Message, World};
use std::alloc::Global;
use std::marker::Model;

/// A process in memory, the code that it runs, and the numbers that `send` goes by, which is what contracts see. Room for
/// frames, operand stacks and the outbox is made at once.
#[derive(Drop)]
pub struct Machine<'a, B: Bytes> {
    code: &'a MachineCode,
    world: World,
    space: Space<B>,
    calls: Calls,
    outbox: Outbox,
}

impl<'a, B: Bytes> Model for Machine<'a, B> {
    ghost use Rattle.std.specs.Coded.{codes};
    ghost use Rattle.bm_run.specs.View.{process_in};
    ghost use Rattle.bm_serve.specs.Space.{IsSpace};
    ghost use Rattle.bm_code.specs.Accepted.{IsAccepted};
    ghost use Rattle.bm_cpu.specs.State.{MachineState, content_code};

    ghost Value = { MachineState };

    ghost coded = { Prim.hlevel (codes, content_code) };

    ghost view = { λ m. record { process = process_in (B.content m.space.memory) m.space.objects m.space.next m.outbox m.calls; code = m.code.now; world = m.world } };

    ghost invariant = { λ m. IsAccepted m.code.now × IsSpace m.code.now.types (B.content m.space.memory) m.space.objects m.space.next m.space.used };
}

/// No call, and room for all.
fn no_calls(alloc: Global) -> Result<Calls, Memory>
    ensures { IfOk result (λ calls. (calls.mode ≡ M.Idle None) × (calls.callers ≡ []) × (calls.spare ≡ 0)) }
{
    Ok(Calls {
        mode: Mode::Idle(None),
        frame: Frame::new(alloc)?,
        callers: Callers::new(alloc)?,
        spare: 0,
    })
}

/// The numbers that `send` goes by before any are told.
fn no_world(alloc: Global) -> World
    ensures { result ≡ no_world }
{
    World {
        own: 0,
        servers: Sequence::from_vec(Vec::new(alloc)),
    }
}

impl<'a, B: Bytes> Machine<'a, B> {
    /// The machine of a program at its start: the globals are mapped with their initial bytes, each at
    /// the address behind the one before. No call runs. On `Memory` the memory is dropped.
    pub fn new(alloc: Global, code: &'a MachineCode, mem: B) -> Result<Self, Memory>
        requires accepted { IsAccepted code.now }
        requires fresh { B.content mem ≡ empty }
        ensures { IfOk result (λ machine. machine ≡ record { process = initial_process code.now; code = code.now; world = no_world }) }
    {
        let mut space = Space {
            memory: mem,
            objects: Objects::fresh(alloc),
            next: FIRST_ADDRESS,
            used: 0,
        };
        put_globals(code, &mut space)?;
        Ok(Machine {
            code,
            world: no_world(alloc),
            space,
            calls: no_calls(alloc)?,
            outbox: Outbox::fresh(alloc)?,
        })
    }

    /// The machine of these bytes and objects, in which no call runs. The next address follows the last object. On
    /// `Memory` both are dropped.
    pub fn adopt(
        alloc: Global,
        code: &'a MachineCode,
        mem: B,
        rows: Objects,
    ) -> Result<Self, Memory>
        requires accepted { IsAccepted code.now }
        requires known { AreKnown code.now.types rows }
        requires mapped { IsMapped (B.content mem) rows }
        ensures { IfOk result (λ machine. machine ≡ record { process = idle_process (record { content = B.content mem; rows = rows; next = next_address rows }); code = code.now; world = no_world }) }
    {
        let next = next_address(&rows);
        let used = heap_bytes(&rows);
        let space = Space {
            memory: mem,
            objects: rows,
            next,
            used,
        };
        Ok(Machine {
            code,
            world: no_world(alloc),
            space,
            calls: no_calls(alloc)?,
            outbox: Outbox::fresh(alloc)?,
        })
    }

    /// The server's own number, and those of all servers, which `send` goes by.
    pub fn set_world(&mut self, alloc: Global, own: i32, servers: &[i32]) -> Result<(), Memory>
        ensures ok { OnOk result (self.new ≡ record { process = self.old.process; code = self.old.code; world = record { own = own; servers = servers.now } }) }
        ensures err { OnErr result (self.new ≡ self.old) }
    {
        let servers = Sequence::from_vec(Vec::from_slice(alloc, servers)?);
        self.world = World { own, servers };
        Ok(())
    }

    /// Begins a call, with an empty outbox and all its ticks. It spends nothing: its entry's tick is the first that `run`
    /// needs.
    pub fn start(&mut self, function: u32, args: &[u64])
        requires idle { is_running self.old.process.activity ≡ false }
        requires parameters { HasParameters self.old.code function (length args.now) }
        ensures { self.new ≡ with_process self.old (started self.old.process function args.now) }
    {
        self.calls.mode = Mode::Starting;
        self.calls.frame.function = function;
        self.calls.frame.locals.fill(args, 0);
        self.calls.spare = CALL_TICKS;
        let sends = &mut self.outbox;
        sends.clear();
    }

    /// Forgets the call that runs, and that the last one trapped.
    pub fn settle(&mut self)
        ensures { self.new ≡ with_process self.old (settled self.old.process) }
    {
        self.calls.mode = Mode::Idle(None);
        self.calls.spare = 0;
    }

    /// Goes on with the call for so many ticks, up to its end. With no call running it answers the last trap or that 0
    /// was returned, and nothing changes. After `Memory`, which only an allocation gives, the next run tries it again.
    pub fn run(&mut self, ticks: u32) -> Stop
        ensures run { IsRun self.old.code self.old.world ticks self.old.process result self.new.process }
        ensures kept { self.new ≡ with_process self.old self.new.process }
    {
        run(
            self.code,
            &self.world,
            &mut self.space,
            &mut self.calls,
            &mut self.outbox,
            ticks,
        )
    }

    /// The bytes of the process.
    pub fn memory(&self) -> &B
        ensures { B.content result.now ≡ self.now.process.content }
    {
        &self.space.memory
    }

    /// The objects of the process, in order. Exactly the live ones have bytes.
    pub fn objects(&self) -> &Objects
        ensures rows { result.now ≡ self.now.process.rows }
        ensures mapped { IsMapped self.now.process.content self.now.process.rows }
    {
        &self.space.objects
    }

    /// The address of the object after all others.
    pub fn next(&self) -> u64
        ensures is { result ≡ self.now.process.next }
        ensures above { All (λ r. end_of r < result) self.now.process.rows }
    {
        self.space.next
    }

    /// How many bytes the live objects of the heap have.
    pub fn heap_bytes(&self) -> u64
        ensures { result ≡ heap_bytes self.now.process.rows }
    {
        self.space.used
    }

    /// What the call sent, in order, each message with the number of its recipient.
    pub fn outbox(&self) -> &[(i32, Message)]
        ensures { result.now ≡ self.now.process.outbox }
    {
        self.outbox.as_slice()
    }

    /// Whether a call runs.
    pub fn running(&self) -> bool
        ensures { result ≡ is_running self.now.process.activity }
    {
        match self.calls.mode {
            Mode::Idle(_) => false,
            _ => true,
        }
    }

    /// Puts a piece in place of the bytes from an address on.
    pub fn put(&mut self, addr: u32, piece: &[u8])
        requires idle { is_running self.old.process.activity ≡ false }
        requires inside { IsInside self.old.process.content addr (length piece.now) }
        ensures written { IsWritten self.old.process.content self.new.process.content addr piece.now }
        ensures kept { self.new ≡ with_process self.old (with_content self.old.process self.new.process.content) }
    {
        self.space.memory.write(addr, piece);
    }

    /// Adds a live object of zero bytes behind all others. The next address follows it. On `Memory` all is as it was.
    pub fn add(&mut self, row: Row) -> Result<(), Memory>
        requires idle { is_running self.old.process.activity ≡ false }
        requires live { row.live ≡ true }
        requires known { row.elem < length self.old.code.types.types }
        requires some { 0 < row.size }
        requires above { All (λ r. end_of r < row.addr) self.old.process.rows }
        requires end { end_of row < 2 ^ 32 }
        ensures ok { OnOk result (self.new ≡ with_process self.old (with_object self.old.process row)) }
        ensures err { OnErr result (self.new ≡ self.old) }
    {
        put_object(self.code, &mut self.space, row)
    }

    /// Takes the live object of the heap that begins at an address away. Its row stays, dead.
    pub fn remove(&mut self, addr: u32)
        requires idle { is_running self.old.process.activity ≡ false }
        requires object { is_heap_object self.old.process.rows addr ≡ true }
        ensures { self.new ≡ with_process self.old (without_object self.old.process addr) }
    {
        let _freed = free(self.code, &mut self.space, addr as u64);
    }

    /// Empties the outbox.
    pub fn clear_outbox(&mut self)
        ensures { self.new ≡ with_process self.old (without_sends self.old.process) }
    {
        self.outbox.clear();
    }
}
