// The schedule of a run.

ghost use Rattle.std.specs.Prelude.{◌≡◌, ◌≤◌, length, IfOk, IfSome};
ghost use Rattle.lu_spec.specs.Fault.{IsCaused};
ghost use Rattle.sched_file.specs.Events.{AreBasic};
ghost use Rattle.lu_load.specs.Schedules.{ScheduleTextAnswers, ScheduleAnswers};

use crate::LoadError;
use crate::error::{of_schedule, of_schedule_file};
use lu_base::limits::SCHEDULE_BYTES;
use lu_base::{Sequence, Shelf};
use plan_file::Plan;
use sched_file::{Event, read_schedule};
use std::alloc::Global;

fn events_in(alloc: Global, plan: &Plan, text: &[u8]) -> Result<Sequence<Event>, LoadError>
    requires { length plan.now.update ≤ 64 }
    ensures answer { ScheduleTextAnswers plan.now text.now result }
    ensures basic { IfOk result (λ events. AreBasic plan.now events) }
{
    match read_schedule(alloc, text, plan) {
        Ok(events) => Ok(Sequence::from_vec(events)),
        Err(error) => Err(of_schedule(error)),
    }
}

/// The basic events of the plan's schedule, whose file has at most 8,388,608 bytes.
pub fn load_schedule<S: Shelf>(
    alloc: Global,
    plan: &Plan,
    shelf: &mut S,
) -> Result<Sequence<Event>, LoadError>
    requires { length plan.now.update ≤ 64 }
    ensures kept { S.holds shelf.new ≡ S.holds shelf.old }
    ensures cause { IsCaused LoadError.ReadFault (S.faults shelf.old) (S.faults shelf.new) result }
    ensures answer { IfSome (S.holds shelf.old) (λ files. ScheduleAnswers plan.now (files plan.now.schedule) result) }
    ensures basic { IfOk result (λ events. AreBasic plan.now events) }
{
    match shelf.read(alloc, plan.schedule.as_str(), SCHEDULE_BYTES as u64) {
        Ok(text) => events_in(alloc, plan, text.as_slice()),
        Err(fault) => Err(of_schedule_file(fault)),
    }
}
