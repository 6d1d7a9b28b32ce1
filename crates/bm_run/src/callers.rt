// The functions that wait for one that they called.

ghost use Rattle.std.specs.Prelude.{◌≡◌, ◌+◌, ◌<◌, ◌≤◌, ◌^◌, [], ◌∷◌, length, drop, map, IfOk, MatchBool};
ghost use Rattle.std.specs.Bool.{OnTrue};
ghost use Rattle.lu_base.specs.declared.limits.TheConstants.{LOCALS, STACK_HEIGHT};
ghost use Rattle.bm_frame.specs.View.{frame_of};
ghost use Rattle.bm_run.specs.Opened.{IsOpened, IsEntered};

use bm_frame::frame::Frame;
use lu_base::Memory;
use lu_base::limits::FRAMES;
use std::alloc::Global;
use std::marker::Model;
use std::mem::replace;

/// How many functions may wait.
const GREATEST_DEPTH: usize = FRAMES - 1;

/// The frames of the functions that wait, which contracts see as a list, the last caller first, and as many free
/// frames as there may be more.
#[derive(Drop)]
pub struct Callers {
    waiting: Vec<Frame>,
    free: Vec<Frame>,
}

impl Model for Callers {
    ghost use Rattle.std.specs.Prelude.{List, reverse, vec_len, vec_capacity};
    ghost use Rattle.bm_frame.specs.declared.frame.Frame.{Frame};
    ghost use Rattle.bm_run.specs.Room.{AreShort, HasRoom};

    ghost Value = { List Frame };

    ghost view = { λ c. reverse c.waiting.items };

    ghost invariant = { λ c. AreShort c.waiting.items × HasRoom (vec_len c.waiting) (vec_len c.free) (vec_capacity c.waiting) (vec_capacity c.free) };
}

fn make_frames(alloc: Global) -> Result<Vec<Frame>, Memory>
    ensures { IfOk result (λ frames. length frames.items ≡ GREATEST_DEPTH) }
{
    let mut frames = Vec::with_capacity(alloc, GREATEST_DEPTH)?;
    for _ in 0..GREATEST_DEPTH {
        let frame = Frame::new(alloc)?;
        frames.push(frame)?;
    }
    Ok(frames)
}

/// Makes a frame that of a function at its entry. The arguments are taken off the caller's stack, which then loses
/// `below` words more and goes on at the next instruction.
fn open(
    fresh: &mut Frame,
    caller: &mut Frame,
    function: u32,
    locals: u32,
    arguments: usize,
    below: usize,
)
    requires place { caller.old.place + 1 < 2 ^ 64 }
    requires locals { locals ≤ LOCALS }
    requires arguments { arguments ≤ LOCALS }
    requires words { arguments + below ≤ length caller.old.stack }
    ensures opened { IsOpened (frame_of fresh.new) (frame_of caller.old) (frame_of caller.new) function locals arguments below }
    ensures short { length caller.new.stack + arguments + below ≡ length caller.old.stack }
{
    fresh.function = function;
    fresh.place = 0;
    fresh.stack.clear();
    fresh.locals.fill(caller.stack.last(arguments), locals);
    caller.stack.cut(arguments);
    caller.stack.cut(below);
    caller.place += 1;
}

impl Callers {
    pub fn new(alloc: Global) -> Result<Callers, Memory>
        ensures { IfOk result (λ callers. callers ≡ []) }
    {
        Ok(Callers {
            waiting: Vec::with_capacity(alloc, GREATEST_DEPTH)?,
            free: make_frames(alloc)?,
        })
    }

    pub fn len(&self) -> usize
        ensures { result ≡ length self.now }
    {
        self.waiting.len()
    }

    /// Lets the function at its entry run, and its caller wait.
    pub fn enter(
        &mut self,
        frame: &mut Frame,
        function: u32,
        locals: u32,
        arguments: usize,
        below: usize,
    )
        requires room { length self.old < GREATEST_DEPTH }
        requires place { frame.old.place + 1 < 2 ^ 64 }
        requires locals { locals ≤ LOCALS }
        requires arguments { arguments ≤ LOCALS }
        requires words { arguments + below ≤ length frame.old.stack }
        requires short { length frame.old.stack ≤ STACK_HEIGHT + arguments + below }
        ensures { IsEntered frame.old frame.new self.old self.new function locals arguments below }
    {
        let Some(mut fresh) = self.free.pop() else {
            unreachable!()
        };
        open(&mut fresh, frame, function, locals, arguments, below);
        let caller = replace(frame, fresh);
        self.waiting.push_reserved(caller);
    }

    /// Lets the last caller run again, if there is one.
    pub fn leave(&mut self, frame: &mut Frame) -> bool
        ensures frame { MatchBool result (self.old ≡ frame.new ∷ self.new) ((self.old ≡ []) × (self.new ≡ self.old) × (frame.new ≡ frame.old)) }
        ensures short { OnTrue result (length frame.new.stack ≤ STACK_HEIGHT) }
    {
        let Some(caller) = self.waiting.pop() else {
            return false;
        };
        let done = replace(frame, caller);
        self.free.push_reserved(done);
        true
    }
}
