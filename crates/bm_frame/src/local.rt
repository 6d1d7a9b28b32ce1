// The instructions that concern a frame alone.

ghost use Rattle.std.specs.Prelude.{◌≡◌, ◌+◌, ◌<◌, ◌≤◌, ◌^◌, [], ◌∷◌, ℕ};
ghost use Rattle.lu_base.specs.declared.limits.TheConstants.{STACK_HEIGHT};
ghost use Rattle.bm_alu.specs.Words.{combined, transformed};
ghost use Rattle.bm_code.specs.Frames.{pushed, with_local, stacked, on_word, on_words};
ghost use Rattle.bm_code.specs.declared.operation.Stacking.TheVariants as S;
ghost use Rattle.bm_frame.specs.View.{frame_of, Leaves};

use crate::frame::Frame;
use bm_alu::{Binary, Unary, combine, transform};
use bm_code::operation::Stacking;
use lu_base::Trap;

/// One more word, where a stack of at most `height` may have it.
#[inline]
fn push(height: u32, frame: &mut Frame, word: u64) -> Result<(), Trap>
    requires place { frame.old.place + 1 < 2 ^ 64 }
    requires height { height ≤ STACK_HEIGHT }
    ensures { Leaves result (pushed height (frame_of frame.old) word) (frame_of frame.new) }
{
    if frame.stack.len() < height as usize {
        frame.stack.push(word);
        frame.place += 1;
        Ok(())
    } else {
        Err(Trap::BadCode)
    }
}

fn get_local(height: u32, frame: &mut Frame, local: u32) -> Result<(), Trap>
    requires place { frame.old.place + 1 < 2 ^ 64 }
    requires height { height ≤ STACK_HEIGHT }
    ensures { Leaves result (stacked (S.GetLocal local) height (frame_of frame.old)) (frame_of frame.new) }
{
    match frame.locals.get(local) {
        Some(word) => push(height, frame, word),
        None => Err(Trap::BadCode),
    }
}

fn set_local(height: u32, frame: &mut Frame, local: u32) -> Result<(), Trap>
    requires { frame.old.place + 1 < 2 ^ 64 }
    ensures { Leaves result (stacked (S.SetLocal local) height (frame_of frame.old)) (frame_of frame.new) }
{
    let Some(word) = frame.stack.pop() else {
        return Err(Trap::BadCode);
    };
    if frame.locals.set(local, word) {
        frame.place += 1;
        Ok(())
    } else {
        Err(Trap::BadCode)
    }
}

fn pop(height: u32, frame: &mut Frame) -> Result<(), Trap>
    requires { frame.old.place + 1 < 2 ^ 64 }
    ensures { Leaves result (stacked S.Pop height (frame_of frame.old)) (frame_of frame.new) }
{
    if frame.stack.pop().is_none() {
        return Err(Trap::BadCode);
    }
    frame.place += 1;
    Ok(())
}

fn duplicate(height: u32, frame: &mut Frame) -> Result<(), Trap>
    requires place { frame.old.place + 1 < 2 ^ 64 }
    requires height { height ≤ STACK_HEIGHT }
    ensures { Leaves result (stacked S.Duplicate height (frame_of frame.old)) (frame_of frame.new) }
{
    match frame.stack.top() {
        Some(word) => push(height, frame, word),
        None => Err(Trap::BadCode),
    }
}

fn swap(height: u32, frame: &mut Frame) -> Result<(), Trap>
    requires { frame.old.place + 1 < 2 ^ 64 }
    ensures { Leaves result (stacked S.Swap height (frame_of frame.old)) (frame_of frame.new) }
{
    let Some(b) = frame.stack.pop() else {
        return Err(Trap::BadCode);
    };
    let Some(a) = frame.stack.pop() else {
        return Err(Trap::BadCode);
    };
    frame.stack.push(b);
    frame.stack.push(a);
    frame.place += 1;
    Ok(())
}

/// Moves words between locals and the stack.
#[inline]
pub fn step_stack(operation: Stacking, height: u32, frame: &mut Frame) -> Result<(), Trap>
    requires place { frame.old.place + 1 < 2 ^ 64 }
    requires height { height ≤ STACK_HEIGHT }
    ensures { Leaves result (stacked operation height (frame_of frame.old)) (frame_of frame.new) }
{
    match operation {
        Stacking::Constant(word) => push(height, frame, word),
        Stacking::GetLocal(local) => get_local(height, frame, local),
        Stacking::SetLocal(local) => set_local(height, frame, local),
        Stacking::Pop => pop(height, frame),
        Stacking::Duplicate => duplicate(height, frame),
        Stacking::Swap => swap(height, frame),
    }
}

/// Puts another word for the topmost.
#[inline]
pub fn step_word(operation: Unary, frame: &mut Frame) -> Result<(), Trap>
    requires { frame.old.place + 1 < 2 ^ 64 }
    ensures { Leaves result (on_word (transformed operation) (frame_of frame.old)) (frame_of frame.new) }
{
    let Some(a) = frame.stack.pop() else {
        return Err(Trap::BadCode);
    };
    let word = transform(operation, a)?;
    frame.stack.push(word);
    frame.place += 1;
    Ok(())
}

/// Puts one word for the two topmost.
#[inline]
pub fn step_words(operation: Binary, frame: &mut Frame) -> Result<(), Trap>
    requires { frame.old.place + 1 < 2 ^ 64 }
    ensures { Leaves result (on_words (combined operation) (frame_of frame.old)) (frame_of frame.new) }
{
    let Some(b) = frame.stack.pop() else {
        return Err(Trap::BadCode);
    };
    let Some(a) = frame.stack.pop() else {
        return Err(Trap::BadCode);
    };
    let word = combine(operation, a, b)?;
    frame.stack.push(word);
    frame.place += 1;
    Ok(())
}
