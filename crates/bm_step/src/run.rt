// Runs.

ghost use Rattle.bm_code.specs.Ran.{IsRun};
ghost use Rattle.bm_run.specs.Transferred.{IsSized};
ghost use Rattle.bm_run.specs.View.{process_in};
ghost use Rattle.bm_serve.specs.Space.{IsSpace};
ghost use Rattle.bm_serve.specs.Held.{HasKnownSites};

use crate::step::step;
use bm_code::code::MachineCode;
use bm_code::stop::Stop;
use bm_mem::Bytes;
use bm_run::calls::Calls;
use bm_serve::outbox::Outbox;
use bm_serve::space::Space;
use lu_base::World;

/// A run of so many ticks, up to its end. Where no call runs, the answer is that of the last one, and nothing changes.
pub fn run<B: Bytes>(
    code: &MachineCode,
    world: &World,
    space: &mut Space<B>,
    calls: &mut Calls,
    outbox: &mut Outbox,
    ticks: u32,
) -> Stop
    requires sized { IsSized code.now }
    requires sites { HasKnownSites code.now }
    requires space { IsSpace code.now.types (B.content space.old.memory) space.old.objects space.old.next space.old.used }
    ensures space { IsSpace code.now.types (B.content space.new.memory) space.new.objects space.new.next space.new.used }
    ensures run { IsRun code.now world.now ticks (process_in (B.content space.old.memory) space.old.objects space.old.next outbox.old calls.old) result (process_in (B.content space.new.memory) space.new.objects space.new.next outbox.new calls.new) }
{
    let mut left = ticks;
    loop {
        if let Some(stop) = step(code, world, space, calls, outbox, &mut left) {
            return stop;
        }
    }
}
