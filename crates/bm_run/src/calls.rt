// What is under way, and its ticks.

ghost use Rattle.std.specs.Prelude.{◌≡◌, Some};
ghost use Rattle.bm_code.specs.declared.stop.Stop.TheVariants as S;
ghost use Rattle.bm_run.specs.Spent.{IsSpent, ended};

use crate::callers::Callers;
use bm_code::stop::Stop;
use bm_frame::frame::Frame;
use lu_base::Trap;

/// Whether a call runs.
#[derive(Clone, Copy, Debug, PartialEq, Eq)]
pub enum Mode {
    /// None does. The last one trapped so, or did not.
    Idle(Option<Trap>),
    /// One has begun: its function and its arguments are the frame's function and locals.
    Starting,
    Running,
}

/// What is under way.
#[derive(Drop)]
pub struct Calls {
    pub mode: Mode,
    pub frame: Frame,
    pub callers: Callers,
    /// How many ticks the call may still use; 0 where none runs.
    pub spare: u32,
}

/// Leaves no call, by a trap or by none, and no tick to spare.
pub(crate) fn end(calls: &mut Calls, last: Option<Trap>)
    ensures { calls.new ≡ ended last calls.old }
{
    calls.mode = Mode::Idle(last);
    calls.spare = 0;
}

/// Spends a tick, of the call and of the run; or says why there is none.
pub fn spend(calls: &mut Calls, left: &mut u32) -> Option<Stop>
    ensures { IsSpent calls.old left.old result calls.new left.new }
{
    if calls.spare == 0 {
        return stop_by(calls, Trap::Budget);
    }
    if *left == 0 {
        return Some(Stop::Paused);
    }
    calls.spare -= 1;
    *left -= 1;
    None
}

/// Ends the call by a trap.
pub fn stop_by(calls: &mut Calls, trap: Trap) -> Option<Stop>
    ensures result { result ≡ Some (S.Trapped trap) }
    ensures calls { calls.new ≡ ended (Some trap) calls.old }
{
    end(calls, Some(trap));
    Some(Stop::Trapped(trap))
}
