// Laws of runs.

ghost use Rattle.bm_code.specs.Laws.{AlwaysEnd, BeginWith, Compose, EndInOneWay};
ghost use Rattle.bm_code.specs.Laws.{PauseAfterSteps, StepOnce, StepsCompose, StepsProlong};

use crate::code::MachineCode;
use lu_base::World;

/// A run that pauses and a further run are one run of as many ticks, each run ends, and in one way only.
pub fn runs(code: &MachineCode, world: &World)
    ensures compose { Compose code.now world.now }
    ensures ends { AlwaysEnd code.now world.now }
    ensures one { EndInOneWay code.now world.now }
{
    let _code = code;
    let _world = world;
}

/// A run by what its first instruction does, and an instruction that goes on as a step.
pub fn instructions(code: &MachineCode, world: &World)
    ensures begin { BeginWith code.now world.now }
    ensures once { StepOnce code.now world.now }
{
    let _code = code;
    let _world = world;
}

/// Instructions compose; a run from where they led is one from where they began; and what a pause leaves.
pub fn steps(code: &MachineCode, world: &World)
    ensures compose { StepsCompose code.now world.now }
    ensures prolong { StepsProlong code.now world.now }
    ensures pause { PauseAfterSteps code.now world.now }
{
    let _code = code;
    let _world = world;
}
