// The instructions that ask for something of the machine.

ghost use Rattle.std.specs.Prelude.{◌≡◌, ◌+◌, ◌<◌, ◌≤◌, ◌^◌, ◌∷◌, ℕ, List, length, drop, OnErr, slice_get};
ghost use Rattle.std.specs.Option.{option_copied};
ghost use Rattle.lu_base.specs.Sending.{Sent};
ghost use Rattle.bm_code.specs.declared.operation.Service.TheVariants as S;
ghost use Rattle.lu_base.specs.declared.world.World.{World as WorldValue};
ghost use Rattle.bm_code.specs.declared.code.MachineCode.{MachineCode as CodeValue};
ghost use Rattle.bm_code.specs.Process.{Frame as FrameValue, Process};
ghost use Rattle.bm_code.specs.Frames.{advanced};
ghost use Rattle.bm_code.specs.Transfers.{trap};
ghost use Rattle.bm_code.specs.Services.{served};
ghost use Rattle.bm_frame.specs.View.{frame_of};
ghost use Rattle.bm_serve.specs.Space.{IsSpace};
ghost use Rattle.bm_serve.specs.Held.{held, HasKnownSites};
ghost use Rattle.bm_serve.specs.Served.{IsServed};

use crate::outbox::Outbox;
use crate::outgoing::{read_message, send};
use crate::space::{Space, allocate, free};
use bm_code::code::{MachineCode, MachineSite};
use bm_code::operation::Service;
use bm_frame::frame::Frame;
use bm_mem::Bytes;
use lu_base::{Trap, World};

/// Why a service doesn't go on.
#[derive(Clone, Copy, Debug, PartialEq, Eq)]
pub enum Halt {
    /// The call traps.
    Trapped(Trap),
    /// An allocation was refused. Nothing has changed, and it can be tried again.
    Memory,
}

/// Puts a word for the topmost, and goes on at the next instruction.
fn replace_top(frame: &mut Frame, word: u64)
    requires { frame.old.place + 1 < 2 ^ 64 }
    ensures { frame_of frame.new ≡ advanced (frame_of frame.old) (word ∷ drop 1 frame.old.stack) }
{
    let _top = frame.stack.pop();
    frame.stack.push(word);
    frame.place += 1;
}

/// Takes the topmost word off, and goes on at the next instruction.
fn drop_top(frame: &mut Frame)
    requires { frame.old.place + 1 < 2 ^ 64 }
    ensures { frame_of frame.new ≡ advanced (frame_of frame.old) (drop 1 frame.old.stack) }
{
    let _top = frame.stack.pop();
    frame.place += 1;
}

/// The allocation of a number.
fn site_at(code: &MachineCode, site: u32) -> Option<&MachineSite>
    ensures { option_copied result ≡ slice_get code.now.sites site }
{
    code.sites.as_slice().get(site as usize)
}

/// Puts the address of so many new elements for their count, or null where there can't be so many.
fn step_allocate<B: Bytes>(
    site: u32,
    code: &MachineCode,
    space: &mut Space<B>,
    frame: &mut Frame,
) -> Result<(), Halt>
    requires place { frame.old.place + 1 < 2 ^ 64 }
    requires sites { HasKnownSites code.now }
    requires space { IsSpace code.now.types (B.content space.old.memory) space.old.objects space.old.next space.old.used }
    ensures served { (world : WorldValue) (outbox : List Sent) → IsServed (S.Allocate site) code.now world (held (B.content space.old.memory) space.old.objects space.old.next outbox) (frame_of frame.old) result (held (B.content space.new.memory) space.new.objects space.new.next outbox) (frame_of frame.new) }
    ensures kept { (outbox : List Sent) → OnErr result (held (B.content space.new.memory) space.new.objects space.new.next outbox ≡ held (B.content space.old.memory) space.old.objects space.old.next outbox) }
    ensures frame { OnErr result (frame.new ≡ frame.old) }
    ensures space { IsSpace code.now.types (B.content space.new.memory) space.new.objects space.new.next space.new.used }
{
    let Some(target) = site_at(code, site) else {
        return Err(Halt::Trapped(Trap::BadCode));
    };
    let Some(count) = frame.stack.top() else {
        return Err(Halt::Trapped(Trap::BadCode));
    };
    let Ok(address) = allocate(code, space, site, target.elem, count) else {
        return Err(Halt::Memory);
    };
    replace_top(frame, address);
    Ok(())
}

/// Frees the object at the topmost address, or nothing where it is null.
fn step_free<B: Bytes>(
    code: &MachineCode,
    space: &mut Space<B>,
    frame: &mut Frame,
) -> Result<(), Halt>
    requires place { frame.old.place + 1 < 2 ^ 64 }
    requires space { IsSpace code.now.types (B.content space.old.memory) space.old.objects space.old.next space.old.used }
    ensures served { (world : WorldValue) (outbox : List Sent) → IsServed S.Free code.now world (held (B.content space.old.memory) space.old.objects space.old.next outbox) (frame_of frame.old) result (held (B.content space.new.memory) space.new.objects space.new.next outbox) (frame_of frame.new) }
    ensures kept { (outbox : List Sent) → OnErr result (held (B.content space.new.memory) space.new.objects space.new.next outbox ≡ held (B.content space.old.memory) space.old.objects space.old.next outbox) }
    ensures frame { OnErr result (frame.new ≡ frame.old) }
    ensures space { IsSpace code.now.types (B.content space.new.memory) space.new.objects space.new.next space.new.used }
{
    let Some(address) = frame.stack.top() else {
        return Err(Halt::Trapped(Trap::BadCode));
    };
    if address != 0 && !free(code, space, address) {
        return Err(Halt::Trapped(Trap::BadFree));
    }
    drop_top(frame);
    Ok(())
}

/// Sends the outgoing message to the topmost number, and puts the answer for it.
fn step_send<B: Bytes>(
    code: &MachineCode,
    world: &World,
    space: &Space<B>,
    outbox: &mut Outbox,
    frame: &mut Frame,
) -> Result<(), Halt>
    requires place { frame.old.place + 1 < 2 ^ 64 }
    requires space { IsSpace code.now.types (B.content space.now.memory) space.now.objects space.now.next space.now.used }
    ensures served { IsServed S.Send code.now world.now (held (B.content space.now.memory) space.now.objects space.now.next outbox.old) (frame_of frame.old) result (held (B.content space.now.memory) space.now.objects space.now.next outbox.new) (frame_of frame.new) }
    ensures kept { OnErr result (outbox.new ≡ outbox.old) }
    ensures frame { OnErr result (frame.new ≡ frame.old) }
{
    let Some(to) = frame.stack.top() else {
        return Err(Halt::Trapped(Trap::BadCode));
    };
    let Some(message) = read_message(code, &space.memory, &space.objects) else {
        return Err(Halt::Trapped(Trap::BadCode));
    };
    let answer = send(world, outbox, to.cast_signed(), message);
    replace_top(frame, answer.cast_unsigned());
    Ok(())
}

/// The trap of a panic with the topmost word, of which the low 32 bits count as an int.
fn panic_of(frame: &Frame) -> Trap
    ensures { (code : CodeValue) (world : WorldValue) (p : Process) (callers : List FrameValue) → served S.Panic code world p (frame_of frame.now) callers ≡ trap result p }
{
    let Some(word) = frame.stack.top() else {
        return Trap::BadCode;
    };
    Trap::Panic(((word % 4_294_967_296) as u32).cast_signed())
}

/// Does what a service asks for, and goes on at the next instruction; or says why not, and then all is as it was. On
/// `Memory` an object would have been added.
pub fn step_service<B: Bytes>(
    service: Service,
    code: &MachineCode,
    world: &World,
    space: &mut Space<B>,
    outbox: &mut Outbox,
    frame: &mut Frame,
) -> Result<(), Halt>
    requires place { frame.old.place + 1 < 2 ^ 64 }
    requires sites { HasKnownSites code.now }
    requires space { IsSpace code.now.types (B.content space.old.memory) space.old.objects space.old.next space.old.used }
    ensures served { IsServed service code.now world.now (held (B.content space.old.memory) space.old.objects space.old.next outbox.old) (frame_of frame.old) result (held (B.content space.new.memory) space.new.objects space.new.next outbox.new) (frame_of frame.new) }
    ensures kept { OnErr result (held (B.content space.new.memory) space.new.objects space.new.next outbox.new ≡ held (B.content space.old.memory) space.old.objects space.old.next outbox.old) }
    ensures frame { OnErr result (frame.new ≡ frame.old) }
    ensures space { IsSpace code.now.types (B.content space.new.memory) space.new.objects space.new.next space.new.used }
{
    match service {
        Service::Allocate(site) => step_allocate(site, code, space, frame),
        Service::Free => step_free(code, space, frame),
        Service::Send => step_send(code, world, space, outbox, frame),
        Service::Panic => Err(Halt::Trapped(panic_of(frame))),
    }
}
