// The instructions that concern a frame and memory alone.

ghost use Rattle.std.specs.Prelude.{◌≡◌, ◌+◌, ◌<◌, ◌≤◌, ◌^◌, OnErr};
ghost use Rattle.lu_base.specs.declared.limits.TheConstants.{STACK_HEIGHT};
ghost use Rattle.bm_frame.specs.View.{frame_of};
ghost use Rattle.bm_code.specs.Mapped.{IsMapped, AreKnown};
ghost use Rattle.bm_run.specs.Plain.{IsPlain, HasActed};

use bm_code::code::{MachineCode, MachineFunction};
use bm_code::operation::Operation;
use bm_frame::frame::Frame;
use bm_frame::local::{step_stack, step_word, step_words};
use bm_frame::memory::step_read;
use bm_frame::pointer::step_pointers;
use bm_frame::writing::step_write;
use bm_mem::Bytes;
use bm_objects::Objects;
use lu_base::Trap;

/// Does what an operation says to the frame and to memory, and goes on at the next instruction. Where it traps, memory
/// is as it was.
#[inline]
pub fn step_plain<B: Bytes>(
    operation: Operation,
    code: &MachineCode,
    function: &MachineFunction,
    memory: &mut B,
    objects: &Objects,
    frame: &mut Frame,
) -> Result<(), Trap>
    requires plain { IsPlain operation }
    requires place { frame.old.place + 1 < 2 ^ 64 }
    requires height { function.now.height ≤ STACK_HEIGHT }
    requires mapped { IsMapped (B.content memory.old) objects.now }
    requires known { AreKnown code.now.types objects.now }
    ensures acts { HasActed operation code.now function.now (B.content memory.old) objects.now (frame_of frame.old) result (B.content memory.new) (frame_of frame.new) }
    ensures mapped { IsMapped (B.content memory.new) objects.now }
    ensures kept { OnErr result (B.content memory.new ≡ B.content memory.old) }
{
    match operation {
        Operation::OnStack(stacking) => step_stack(stacking, function.height, frame),
        Operation::OnWord(unary) => step_word(unary, frame),
        Operation::OnWords(binary) => step_words(binary, frame),
        Operation::OnPointers(pointing) => step_pointers(pointing, objects, frame),
        Operation::Reads(reading) => step_read(reading, &code.types, memory, objects, frame),
        Operation::Writes(writing) => step_write(writing, memory, objects, frame),
        _ => unreachable!(),
    }
}
