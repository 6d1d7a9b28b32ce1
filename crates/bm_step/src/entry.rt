// The entry of a call that has begun.

ghost use Rattle.std.specs.Prelude.{◌≡◌, ◌≤◌, [], ℕ, List};
ghost use Rattle.lu_base.specs.declared.limits.TheConstants.{LOCALS};
ghost use Rattle.lu_base.specs.Sending.{Sent};
ghost use Rattle.bm_mem.specs.Content.{Content};
ghost use Rattle.bm_objects.specs.declared.row.Row.{Row};
ghost use Rattle.lu_base.specs.declared.world.World.{World};
ghost use Rattle.bm_code.specs.Transfers.{entered};
ghost use Rattle.bm_frame.specs.View.{frame_of};
ghost use Rattle.bm_run.specs.View.{process_in};
ghost use Rattle.bm_run.specs.Going.{IsStep};
ghost use Rattle.bm_run.specs.declared.calls.Mode.TheVariants as M;
ghost use Rattle.bm_run.specs.Transferred.{IsSized};

use bm_code::code::{MachineCode, MachineFunction};
use bm_code::stop::Stop;
use bm_run::calls::{Calls, Mode, spend, stop_by};
use bm_run::transfer::function_at;
use lu_base::Trap;
use lu_base::limits::LOCALS;

/// Lets no function wait. What the frame then is, isn't said.
fn drop_callers(calls: &mut Calls)
    ensures callers { calls.new.callers ≡ [] }
    ensures spare { calls.new.spare ≡ calls.old.spare }
{
    while calls.callers.leave(&mut calls.frame) {}
}

/// Makes the frame, whose locals are the arguments, that of the function at its entry. No other function is under way.
fn open(function: &MachineFunction, calls: &mut Calls)
    requires { function.now.locals ≤ LOCALS }
    ensures frame { frame_of calls.new.frame ≡ entered function.now calls.old.frame.function calls.old.frame.locals }
    ensures callers { calls.new.callers ≡ [] }
    ensures mode { calls.new.mode ≡ M.Running }
    ensures spare { calls.new.spare ≡ calls.old.spare }
{
    let number = calls.frame.function;
    let given = calls.frame.locals.words();
    let count = given.len();
    let mut arguments = [0u64; LOCALS];
    arguments[..count].copy_from_slice(given);
    drop_callers(calls);
    calls.frame.function = number;
    calls.frame.place = 0;
    calls.frame.stack.clear();
    calls
        .frame
        .locals
        .fill(&arguments[..count], function.locals);
    calls.mode = Mode::Running;
}

/// Enters the function of a call that has begun. The entry takes a tick.
pub(crate) fn step_entry(code: &MachineCode, calls: &mut Calls, left: &mut u32) -> Option<Stop>
    requires starting { calls.old.mode ≡ M.Starting }
    requires sized { IsSized code.now }
    ensures { (world : World) (m : Content) (rows : List Row) (next : ℕ) (outbox : List Sent) → IsStep code.now world left.old (process_in m rows next outbox calls.old) result left.new (process_in m rows next outbox calls.new) }
{
    let Some(function) = function_at(code, calls.frame.function as usize) else {
        return stop_by(calls, Trap::BadCode);
    };
    if let Some(stop) = spend(calls, left) {
        return Some(stop);
    }
    open(function, calls);
    None
}
