// One function under way.

ghost use Rattle.std.specs.Prelude.{◌≡◌, IfOk};
ghost use Rattle.bm_frame.specs.Start.{first_frame};
ghost use Rattle.bm_frame.specs.View.{frame_of};

use crate::locals::Locals;
use crate::stack::Stack;
use lu_base::Memory;
use std::alloc::Global;

/// A function under way, with room for any.
#[derive(Drop)]
pub struct Frame {
    /// The number of the function.
    pub function: u32,
    /// The index of its next instruction.
    pub place: usize,
    pub locals: Locals,
    pub stack: Stack,
}

impl Frame {
    /// At the first instruction of function 0, with no locals and no words.
    pub fn new(alloc: Global) -> Result<Frame, Memory>
        ensures { IfOk result (λ frame. frame_of frame ≡ first_frame) }
    {
        Ok(Frame {
            function: 0,
            place: 0,
            locals: Locals::new(alloc)?,
            stack: Stack::new(alloc)?,
        })
    }
}
