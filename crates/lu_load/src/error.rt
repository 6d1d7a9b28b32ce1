// Why no setup is loaded.

ghost use Rattle.std.specs.Prelude.{◌≡◌};
ghost use Rattle.lu_load.specs.Causes.{plan_file_cause, plan_cause, schedule_file_cause, schedule_cause, IsSourceCause, IsRefusedOr, IsFilterCause, IsPairingCause};
ghost use Rattle.lu_load.specs.declared.error.LoadError.TheVariants as error;

use lu_base::{Memory, Name, ShelfFault};
use lu_filter::FilterError;
use lu_load_lines::{FilterRefusal, LoadRefusal, PlanRefusal, ScheduleRefusal};
use lu_resolve::ResolveError;
use lu_source::SourceError;
use plan_file::PlanError;
use sched_file::SchedError;
use std::alloc::Global;

/// Why no setup is loaded.
#[derive(Debug, Drop)]
pub enum LoadError {
    /// The files are refused: the first cause in the order in which they are read.
    Refused(LoadRefusal),
    /// A read failed.
    ReadFault,
    /// An allocation was refused.
    Memory,
}

impl From<Memory> for LoadError {
    ghost from_gives = { λ _ e. e ≡ error.Memory };

    fn from(_: Memory) -> Self {
        LoadError::Memory
    }
}

/// The cause that a plan isn't read.
pub fn of_plan_file(fault: ShelfFault) -> LoadError
    ensures { result ≡ plan_file_cause fault }
{
    match fault {
        ShelfFault::Failed => LoadError::ReadFault,
        ShelfFault::Absent => LoadError::Refused(LoadRefusal::Plan(PlanRefusal::Absent)),
        ShelfFault::TooLarge => LoadError::Refused(LoadRefusal::Plan(PlanRefusal::TooLarge)),
        ShelfFault::Memory => LoadError::Memory,
    }
}

/// The cause that a text is no plan.
pub fn of_plan(error: PlanError) -> LoadError
    ensures { result ≡ plan_cause error }
{
    match error {
        PlanError::NotToml => LoadError::Refused(LoadRefusal::Plan(PlanRefusal::NotToml)),
        PlanError::Field { name } => {
            LoadError::Refused(LoadRefusal::Plan(PlanRefusal::Field { key: name }))
        }
        PlanError::Limit { name } => {
            LoadError::Refused(LoadRefusal::Plan(PlanRefusal::Limit { list: name }))
        }
        PlanError::Memory => LoadError::Memory,
    }
}

/// The cause that a schedule isn't read.
pub fn of_schedule_file(fault: ShelfFault) -> LoadError
    ensures { result ≡ schedule_file_cause fault }
{
    match fault {
        ShelfFault::Failed => LoadError::ReadFault,
        ShelfFault::Absent => LoadError::Refused(LoadRefusal::Schedule(ScheduleRefusal::Absent)),
        ShelfFault::TooLarge => {
            LoadError::Refused(LoadRefusal::Schedule(ScheduleRefusal::TooLarge))
        }
        ShelfFault::Memory => LoadError::Memory,
    }
}

/// The cause that a text is no schedule.
pub fn of_schedule(error: SchedError) -> LoadError
    ensures { result ≡ schedule_cause error }
{
    match error {
        SchedError::Line { n } => {
            LoadError::Refused(LoadRefusal::Schedule(ScheduleRefusal::Line { number: n }))
        }
        SchedError::Limit => LoadError::Refused(LoadRefusal::Schedule(ScheduleRefusal::Limit)),
        SchedError::Memory => LoadError::Memory,
    }
}

/// The cause that the source in the file of that name isn't read.
pub fn of_source(alloc: Global, file: &Name, error: SourceError) -> LoadError
    ensures { IsSourceCause file.now error result }
{
    match error {
        SourceError::Refused(why) => match file.copy(alloc) {
            Ok(file) => LoadError::Refused(LoadRefusal::Source { file, why }),
            Err(_) => LoadError::Memory,
        },
        SourceError::ReadFault => LoadError::ReadFault,
        SourceError::Memory => LoadError::Memory,
    }
}

fn of_filter_refusal(alloc: Global, update: &Name, why: FilterRefusal) -> LoadError
    ensures { IsRefusedOr (LoadRefusal.Filter update.now why) result }
{
    match update.copy(alloc) {
        Ok(update) => LoadError::Refused(LoadRefusal::Filter { update, why }),
        Err(_) => LoadError::Memory,
    }
}

/// The cause that a text is no filter of the update of that name.
pub fn of_filter(alloc: Global, update: &Name, error: FilterError) -> LoadError
    ensures { IsFilterCause update.now error result }
{
    let why = match error {
        FilterError::BadByte { col } => FilterRefusal::BadByte { col },
        FilterError::BadNumber { col } => FilterRefusal::BadNumber { col },
        FilterError::Syntax => FilterRefusal::Syntax,
        FilterError::TooDeep => FilterRefusal::TooDeep,
        FilterError::Rule { code } => FilterRefusal::Rule { code },
        FilterError::NotInt => FilterRefusal::NotInteger,
        FilterError::Memory => return LoadError::Memory,
    };
    of_filter_refusal(alloc, update, why)
}

/// The cause that the names of the update of that name stand for nothing.
pub fn of_pairing(alloc: Global, update: &Name, error: ResolveError) -> LoadError
    ensures { IsPairingCause update.now error result }
{
    match error {
        ResolveError::Refused(why) => match update.copy(alloc) {
            Ok(update) => LoadError::Refused(LoadRefusal::Pairing { update, why }),
            Err(_) => LoadError::Memory,
        },
        ResolveError::Memory => LoadError::Memory,
    }
}
