// One step of a run.

ghost use Rattle.std.specs.Prelude.{◌≡◌, ◌+◌, ◌<◌, ◌≤◌, ◌^◌, ℕ, List, map};
ghost use Rattle.lu_base.specs.declared.limits.TheConstants.{STACK_HEIGHT};
ghost use Rattle.lu_base.specs.Sending.{Sent};
ghost use Rattle.lu_base.specs.declared.world.World.{World as WorldValue};
ghost use Rattle.bm_code.specs.Services.{served};
ghost use Rattle.bm_code.specs.Step.{act};
ghost use Rattle.bm_frame.specs.View.{frame_of};
ghost use Rattle.bm_run.specs.declared.calls.Mode.TheVariants as M;
ghost use Rattle.bm_run.specs.Came.{Came};
ghost use Rattle.bm_run.specs.Going.{IsStep};
ghost use Rattle.bm_run.specs.Plain.{IsPlain};
ghost use Rattle.bm_run.specs.Transferred.{IsSized};
ghost use Rattle.bm_run.specs.View.{process_in};
ghost use Rattle.bm_serve.specs.Space.{IsSpace};
ghost use Rattle.bm_serve.specs.Held.{HasKnownSites};

use crate::entry::step_entry;
use bm_code::code::{MachineCode, MachineFunction};
use bm_code::operation::{Operation, Service, classify};
use bm_code::stop::Stop;
use bm_mem::Bytes;
use bm_run::calls::{Calls, Mode, stop_by};
use bm_run::plain::step_plain;
use bm_run::transfer::{function_at, step_transfer};
use bm_serve::outbox::Outbox;
use bm_serve::service::{Halt, step_service};
use bm_serve::space::Space;
use lu_base::{Trap, World};

/// An instruction that concerns the frame and memory alone.
#[inline]
fn do_plain<B: Bytes>(
    operation: Operation,
    code: &MachineCode,
    function: &MachineFunction,
    space: &mut Space<B>,
    calls: &mut Calls,
) -> Option<Stop>
    requires plain { IsPlain operation }
    requires running { calls.old.mode ≡ M.Running }
    requires place { calls.old.frame.place + 1 < 2 ^ 64 }
    requires height { function.now.height ≤ STACK_HEIGHT }
    requires space { IsSpace code.now.types (B.content space.old.memory) space.old.objects space.old.next space.old.used }
    ensures space { IsSpace code.now.types (B.content space.new.memory) space.new.objects space.new.next space.new.used }
    ensures step { (world : WorldValue) (outbox : List Sent) (left : ℕ) → Came (act operation code.now world function.now (process_in (B.content space.old.memory) space.old.objects space.old.next outbox calls.old) (frame_of calls.old.frame) (map frame_of calls.old.callers)) (process_in (B.content space.old.memory) space.old.objects space.old.next outbox calls.old) left result left (process_in (B.content space.new.memory) space.new.objects space.new.next outbox calls.new) }
{
    match step_plain(
        operation,
        code,
        function,
        &mut space.memory,
        &space.objects,
        &mut calls.frame,
    ) {
        Ok(()) => None,
        Err(trap) => stop_by(calls, trap),
    }
}

/// An instruction that asks for something of the machine.
fn serve<B: Bytes>(
    service: Service,
    code: &MachineCode,
    world: &World,
    space: &mut Space<B>,
    calls: &mut Calls,
    outbox: &mut Outbox,
) -> Option<Stop>
    requires running { calls.old.mode ≡ M.Running }
    requires place { calls.old.frame.place + 1 < 2 ^ 64 }
    requires sites { HasKnownSites code.now }
    requires space { IsSpace code.now.types (B.content space.old.memory) space.old.objects space.old.next space.old.used }
    ensures space { IsSpace code.now.types (B.content space.new.memory) space.new.objects space.new.next space.new.used }
    ensures step { (left : ℕ) → Came (served service code.now world.now (process_in (B.content space.old.memory) space.old.objects space.old.next outbox.old calls.old) (frame_of calls.old.frame) (map frame_of calls.old.callers)) (process_in (B.content space.old.memory) space.old.objects space.old.next outbox.old calls.old) left result left (process_in (B.content space.new.memory) space.new.objects space.new.next outbox.new calls.new) }
{
    match step_service(service, code, world, space, outbox, &mut calls.frame) {
        Ok(()) => None,
        Err(Halt::Trapped(trap)) => stop_by(calls, trap),
        Err(Halt::Memory) => Some(Stop::Memory),
    }
}

/// Does what an operation says.
#[inline]
fn perform<B: Bytes>(
    operation: Operation,
    code: &MachineCode,
    world: &World,
    function: &MachineFunction,
    space: &mut Space<B>,
    calls: &mut Calls,
    outbox: &mut Outbox,
    left: &mut u32,
) -> Option<Stop>
    requires running { calls.old.mode ≡ M.Running }
    requires place { calls.old.frame.place + 1 < 2 ^ 64 }
    requires sized { IsSized code.now }
    requires height { function.now.height ≤ STACK_HEIGHT }
    requires sites { HasKnownSites code.now }
    requires space { IsSpace code.now.types (B.content space.old.memory) space.old.objects space.old.next space.old.used }
    ensures space { IsSpace code.now.types (B.content space.new.memory) space.new.objects space.new.next space.new.used }
    ensures step { Came (act operation code.now world.now function.now (process_in (B.content space.old.memory) space.old.objects space.old.next outbox.old calls.old) (frame_of calls.old.frame) (map frame_of calls.old.callers)) (process_in (B.content space.old.memory) space.old.objects space.old.next outbox.old calls.old) left.old result left.new (process_in (B.content space.new.memory) space.new.objects space.new.next outbox.new calls.new) }
{
    match operation {
        Operation::Transfers(transfer) => step_transfer(transfer, code, function, calls, left),
        Operation::Serves(service) => serve(service, code, world, space, calls, outbox),
        _ => do_plain(operation, code, function, space, calls),
    }
}

/// The next instruction of the function under way.
#[inline]
fn step_running<B: Bytes>(
    code: &MachineCode,
    world: &World,
    space: &mut Space<B>,
    calls: &mut Calls,
    outbox: &mut Outbox,
    left: &mut u32,
) -> Option<Stop>
    requires running { calls.old.mode ≡ M.Running }
    requires sized { IsSized code.now }
    requires sites { HasKnownSites code.now }
    requires space { IsSpace code.now.types (B.content space.old.memory) space.old.objects space.old.next space.old.used }
    ensures space { IsSpace code.now.types (B.content space.new.memory) space.new.objects space.new.next space.new.used }
    ensures step { IsStep code.now world.now left.old (process_in (B.content space.old.memory) space.old.objects space.old.next outbox.old calls.old) result left.new (process_in (B.content space.new.memory) space.new.objects space.new.next outbox.new calls.new) }
{
    let Some(function) = function_at(code, calls.frame.function as usize) else {
        return stop_by(calls, Trap::BadCode);
    };
    let Some(instr) = function.code.as_slice().get(calls.frame.place) else {
        return stop_by(calls, Trap::BadCode);
    };
    perform(
        classify(*instr),
        code,
        world,
        function,
        space,
        calls,
        outbox,
        left,
    )
}

/// One step of a run with `left` ticks: the next instruction, or the entry of a call that has begun. Where no call runs,
/// the answer is that of the last one. Nothing, where the run goes on.
#[inline]
pub fn step<B: Bytes>(
    code: &MachineCode,
    world: &World,
    space: &mut Space<B>,
    calls: &mut Calls,
    outbox: &mut Outbox,
    left: &mut u32,
) -> Option<Stop>
    requires sized { IsSized code.now }
    requires sites { HasKnownSites code.now }
    requires space { IsSpace code.now.types (B.content space.old.memory) space.old.objects space.old.next space.old.used }
    ensures space { IsSpace code.now.types (B.content space.new.memory) space.new.objects space.new.next space.new.used }
    ensures step { IsStep code.now world.now left.old (process_in (B.content space.old.memory) space.old.objects space.old.next outbox.old calls.old) result left.new (process_in (B.content space.new.memory) space.new.objects space.new.next outbox.new calls.new) }
{
    match calls.mode {
        Mode::Idle(None) => Some(Stop::Returned(0)),
        Mode::Idle(Some(trap)) => Some(Stop::Trapped(trap)),
        Mode::Starting => step_entry(code, calls, left),
        Mode::Running => step_running(code, world, space, calls, outbox, left),
    }
}
