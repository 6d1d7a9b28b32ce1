// What the files of a run stand for.

ghost use Rattle.std.specs.Prelude.{◌≡◌, ◌≤◌, pos, IfOk, IfSome};
ghost use Rattle.lu_spec.specs.Fault.{IsCaused};
ghost use Rattle.plan_file.specs.Kept.{KeepsForms};
ghost use Rattle.lu_load.specs.Setups.{LoadAnswers, KeepsSetup, numbers_of};

use crate::LoadError;
use crate::plan::load_plan;
use crate::schedule::load_schedule;
use crate::source::{load_sources, sources_of};
use crate::update::{UpdateSetup, load_updates};
use cg_program::code::Code;
use lu_base::{Memory, Sequence, Shelf};
use plan_file::{Plan, Server};
use sched_file::Event;
use std::alloc::Global;

/// What the files of a run stand for.
#[derive(Drop)]
pub struct Setup {
    pub plan: Plan,
    /// The number of each server.
    pub numbers: Sequence<i32>,
    /// For each server the code that it begins with, and behind them for each update that of its new version, in the plan's
    /// order. They have no filters.
    pub codes: Sequence<Code>,
    /// For each update of the plan what it stands for.
    pub updates: Sequence<UpdateSetup>,
    /// The basic events, at most 100,000.
    pub events: Sequence<Event>,
}

fn number_of(server: &Server) -> i32
    requires { server.now.number ≤ 16 }
    ensures { result ≡ pos server.now.number }
{
    server.number as i32
}

fn numbers_of(alloc: Global, plan: &Plan) -> Result<Sequence<i32>, Memory>
    requires { KeepsForms plan.now }
    ensures { IfOk result (λ numbers. numbers ≡ numbers_of plan.now) }
{
    let mut numbers = Sequence::from_vec(Vec::new(alloc));
    for server in plan.server.as_slice() {
        numbers.push(number_of(server))?;
    }
    Ok(numbers)
}

/// Reads the plan of that name, the source of each of its servers and the source of each of its updates, finds what each update
/// says of its filter, its renames, its handlers and its last call, and reads the schedule, in this order. No file is read behind
/// what is refused.
///
/// # Errors
///
/// `Refused` with the first cause, in that order, why the files stand for no setup. `ReadFault` where a read failed.
/// `Memory` where an allocation was refused.
pub fn load<S: Shelf>(alloc: Global, name: &str, shelf: &mut S) -> Result<Setup, LoadError>
    ensures kept { S.holds shelf.new ≡ S.holds shelf.old }
    ensures cause { IsCaused LoadError.ReadFault (S.faults shelf.old) (S.faults shelf.new) result }
    ensures answer { IfSome (S.holds shelf.old) (λ files. LoadAnswers files name.now result) }
    ensures setup { IfOk result KeepsSetup }
{
    let plan = load_plan(alloc, name, shelf)?;
    let sources = sources_of(alloc, &plan)?;
    let codes = load_sources(alloc, sources.as_slice(), shelf)?;
    let updates = load_updates(alloc, &plan, codes.as_slice())?;
    let events = load_schedule(alloc, &plan, shelf)?;
    let numbers = numbers_of(alloc, &plan)?;
    Ok(Setup {
        plan,
        numbers,
        codes,
        updates,
        events,
    })
}
