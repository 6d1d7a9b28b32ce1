// A server: a program's process, with the calls that the kernel makes.

ghost use Rattle.std.specs.Prelude.{◌≡◌, ◌≢◌, ◌<◌, true, false, not, length, ◌++◌, IfOk, OnOk, OnErr};
ghost use Rattle.std.specs.FinMap.{empty};
ghost use Rattle.c_types.specs.Layout.{size_of};
ghost use Rattle.bm_objects.specs.Table.{next_address};
ghost use Rattle.bm_code.specs.declared.stop.Stop.TheVariants.{Paused};
ghost use Rattle.bm_code.specs.Accepted.{HasParameters};
ghost use Rattle.bm_code.specs.Calls.{is_running, started, with_content, without_sends};
ghost use Rattle.bm_code.specs.Globals.{idle_process, initial_process};
ghost use Rattle.bm_code.specs.Mapped.{AreKnown, IsMapped};
ghost use Rattle.cg_program.specs.Compiled.{machine_code};
ghost use Rattle.cg_server.specs.Deliveries.{IsFiltered, IsServed, begun_delivery, begun_init, filter_answer, is_unfinished};
ghost use Rattle.cg_server.specs.Dump.{dump_notes};
ghost use Rattle.cg_server.specs.Messages.{has_messages, without_messages};
ghost use Rattle.cg_server.specs.State.{server_of, with_process};
ghost use Rattle.cg_server.specs.Temporaries.{placed, without_temporary};

use crate::dump::push_dump;
use crate::handlers::handler_number;
use crate::messages::{NO_MESSAGE, message_bytes, put_bytes};
use crate::temporary::{is_heap_object, put_temporary, temporary_row};
use bm_code::stop::Stop;
use bm_cpu::machine::Machine;
use bm_mem::Bytes;
use bm_objects::Objects;
use c_types::TyId;
use cg_program::code::Code;
use lu_base::limits::CALL_TICKS;
use lu_base::{Memory, Message, Name, Trap};
use lu_lines::Notes;
use std::alloc::Global;
use std::marker::Model;

/// A process of a compiled program. Contracts see the process, the program and the numbers that `send` goes by.
#[derive(Drop)]
pub struct Server<'a, B: Bytes> {
    code: &'a Code,
    machine: Machine<'a, B>,
    /// The number of the function `on_message`.
    on_message: u32,
}

impl<'a, B: Bytes> Model for Server<'a, B> {
    ghost use Rattle.std.specs.Prelude.{◌≡◌, true, codes as text};
    ghost use Rattle.std.specs.Coded.{codes};
    ghost use Rattle.bm_cpu.specs.State.{content_code};
    ghost use Rattle.cg_program.specs.Codes.{source_code};
    ghost use Rattle.cg_program.specs.Compiled.{IsSource, machine_code};
    ghost use Rattle.cg_server.specs.Deliveries.{handler_number};
    ghost use Rattle.cg_server.specs.Messages.{has_messages};
    ghost use Rattle.cg_server.specs.State.{ServerState};

    ghost Value = { ServerState };

    ghost coded = { Prim.hlevel (codes, content_code, source_code) };

    ghost view = { λ s. record { process = s.machine.process; source = s.code.now; world = s.machine.world } };

    ghost invariant = { λ s. (s.machine.code ≡ machine_code s.code.now) × IsSource s.code.now × (has_messages s.machine.process.rows ≡ true) × (s.on_message ≡ handler_number s.code.now (text "on_message")) };
}

/// What a filter's code hands on.
fn filter_answer(stop: Stop) -> Result<bool, Trap>
    ensures { result ≡ filter_answer stop }
{
    match stop {
        Stop::Trapped(Trap::Panic(n)) => Ok(n != 0),
        Stop::Trapped(trap) => Err(trap),
        _ => Err(Trap::BadCode),
    }
}

impl<'a, B: Bytes> Server<'a, B> {
    /// The server of a program at its start, in which no call runs. It has the number `own`, and `send` goes by the numbers
    /// `servers` of all servers. On `Memory` the memory is dropped.
    pub fn new(
        alloc: Global,
        code: &'a Code,
        own: i32,
        servers: &[i32],
        mem: B,
    ) -> Result<Self, Memory>
        requires { B.content mem ≡ empty }
        ensures { IfOk result (λ server. server ≡ server_of code.now own servers.now (initial_process (machine_code code.now))) }
    {
        let _program = code.program();
        let mut machine = Machine::new(alloc, code.machine(), mem)?;
        machine.set_world(alloc, own, servers)?;
        Ok(Server {
            code,
            machine,
            on_message: handler_number(code, b"on_message"),
        })
    }

    /// The server of these bytes and objects, in which no call runs. The next address follows the last object. On `Memory`
    /// both are dropped.
    pub fn adopt(
        alloc: Global,
        code: &'a Code,
        own: i32,
        servers: &[i32],
        mem: B,
        rows: Objects,
    ) -> Result<Self, Memory>
        requires known { AreKnown code.now.program.types rows }
        requires mapped { IsMapped (B.content mem) rows }
        requires messages { has_messages rows ≡ true }
        ensures { IfOk result (λ server. server ≡ server_of code.now own servers.now (idle_process (record { content = B.content mem; rows = rows; next = next_address rows }))) }
    {
        let _program = code.program();
        let mut machine = Machine::adopt(alloc, code.machine(), mem, rows)?;
        machine.set_world(alloc, own, servers)?;
        Ok(Server {
            code,
            machine,
            on_message: handler_number(code, b"on_message"),
        })
    }

    /// Begins a call of `init`. It spends nothing.
    pub fn init(&mut self)
        requires { is_running self.old.process.activity ≡ false }
        ensures { self.new ≡ with_process self.old (begun_init self.old.source self.old.process) }
    {
        let init = handler_number(self.code, b"init");
        self.machine.start(init, &[]);
    }

    /// Begins the delivery of a message. It spends nothing.
    pub fn deliver(&mut self, message: &Message)
        requires { is_running self.old.process.activity ≡ false }
        ensures { self.new ≡ with_process self.old (begun_delivery self.old.source self.old.process message.now) }
    {
        put_bytes(&mut self.machine, 0, &message_bytes(message));
        self.machine.start(self.on_message, &[]);
    }

    /// Goes on with the delivery, or with `init`, for so many ticks, up to its end. On `Returned` both messages are zero. After
    /// `Memory`, which only an allocation gives, the next run tries it again. No call runs after `Returned` and `Trapped`.
    pub fn run(&mut self, ticks: u32) -> Stop
        ensures run { IsServed self.old.source self.old.world ticks self.old.process result self.new.process }
        ensures over { is_running self.new.process.activity ≡ is_unfinished result }
        ensures kept { self.new ≡ with_process self.old self.new.process }
    {
        let stop = self.machine.run(ticks);
        if let Stop::Returned(_) = stop {
            put_bytes(&mut self.machine, 0, &NO_MESSAGE);
            put_bytes(&mut self.machine, 1, &NO_MESSAGE);
        }
        stop
    }

    /// Calls a function by its number, up to its end. On `Returned` both messages are zero. After `Memory` the server is to
    /// be dropped.
    pub fn call(&mut self, function: u32, args: &[u64]) -> Stop
        requires idle { is_running self.old.process.activity ≡ false }
        requires parameters { HasParameters (machine_code self.old.source) function (length args.now) }
        ensures run { IsServed self.old.source self.old.world CALL_TICKS (started self.old.process function args.now) result self.new.process }
        ensures ends { result ≢ Paused }
        ensures over { is_running self.new.process.activity ≡ is_unfinished result }
        ensures kept { self.new ≡ with_process self.old self.new.process }
    {
        self.machine.start(function, args);
        self.run(CALL_TICKS)
    }

    /// Whether filter `k` is nonzero, or the trap that it met. No call runs then, and no trap is remembered.
    pub fn filter(&mut self, k: u32) -> Result<bool, Trap>
        requires idle { is_running self.old.process.activity ≡ false }
        requires known { k < length self.old.source.filters }
        ensures run { IsFiltered self.old.source self.old.world self.old.process k result self.new.process }
        ensures kept { self.new ≡ with_process self.old self.new.process }
        ensures idle { is_running self.new.process.activity ≡ false }
    {
        let functions = self.code.program().functions.as_slice();
        self.machine.start(functions.len() as u32 + k, &[]);
        let stop = self.machine.run(CALL_TICKS);
        self.machine.settle();
        filter_answer(stop)
    }

    /// What the call sent, in order, each message with the number of its recipient. It takes no memory.
    pub fn outbox(&self) -> &[(i32, Message)]
        ensures { result.now ≡ self.now.process.outbox }
    {
        self.machine.outbox()
    }

    /// Empties the outbox.
    pub fn clear_outbox(&mut self)
        ensures { self.new ≡ with_process self.old (without_sends self.old.process) }
    {
        self.machine.clear_outbox();
    }

    /// Whether no call runs.
    pub fn idle(&self) -> bool
        ensures { result ≡ not (is_running self.now.process.activity) }
    {
        !self.machine.running()
    }

    /// The bytes of the process. It takes no memory.
    pub fn memory(&self) -> &B
        ensures { B.content result.now ≡ self.now.process.content }
    {
        self.machine.memory()
    }

    /// The objects of the process, in order, dead ones too. Exactly the live ones have bytes. It takes no memory.
    pub fn objects(&self) -> &Objects
        ensures rows { result.now ≡ self.now.process.rows }
        ensures mapped { IsMapped self.now.process.content self.now.process.rows }
        ensures messages { has_messages self.now.process.rows ≡ true }
    {
        self.machine.objects()
    }

    /// Puts the note of a dump of the server of that name and a note of each live object, in order, behind the others. On
    /// `Memory` these are as they were.
    pub fn dump(&self, alloc: Global, name: &Name, out: &mut Notes) -> Result<(), Memory>
        requires { is_running self.now.process.activity ≡ false }
        ensures ok { OnOk result (out.new.list ≡ out.old.list ++ dump_notes name.now self.now.source.program self.now.process) }
        ensures err { OnErr result (out.new.list ≡ out.old.list) }
    {
        let machine = &self.machine;
        push_dump(
            alloc,
            name,
            self.code.program(),
            machine.memory(),
            machine.objects(),
            out,
        )
    }

    /// Makes a temporary heap object of one element with these bytes, and gives its address. There is none, and all is as it
    /// was, exactly where the heap's bound or the addresses leave no room for it. On `Memory` all is as it was.
    pub fn place_temp(&mut self, elem: TyId, value: &[u8]) -> Result<Option<u32>, Memory>
        requires idle { is_running self.old.process.activity ≡ false }
        requires known { elem < length self.old.source.program.types.types }
        requires long { length value.now ≡ size_of self.old.source.program.types elem }
        ensures ok { IfOk result (λ address. (address, self.new.process) ≡ placed self.old.source.program self.old.process elem value.now) }
        ensures kept { self.new ≡ with_process self.old self.new.process }
        ensures err { OnErr result (self.new ≡ self.old) }
    {
        let used = self.machine.heap_bytes();
        let next = self.machine.next();
        let Some(row) = temporary_row(self.code.program(), used, next, elem) else {
            return Ok(None);
        };
        put_temporary(&mut self.machine, row, value)?;
        Ok(Some(row.addr))
    }

    /// Takes away the live heap object that begins at the address, as a temporary does that was made there; nothing where
    /// there is none. It takes no memory.
    pub fn free_temp(&mut self, addr: u32)
        requires { is_running self.old.process.activity ≡ false }
        ensures { self.new ≡ with_process self.old (without_temporary self.old.process addr) }
    {
        if is_heap_object(self.machine.objects(), addr) {
            self.machine.remove(addr);
        }
    }

    /// The code that the server runs. It takes no memory.
    pub fn code(&self) -> &'a Code
        ensures { result.now ≡ self.now.source }
    {
        self.code
    }
}
