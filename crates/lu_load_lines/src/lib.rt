//! Loading, the lines of refused files: between the loader and the lines of the transcript. It takes the cause for which the
//! files of a run are refused, and gives the one line that the program writes of it: exactly that of `line_of`.
#![tactic(auto)]

mod line;
mod refusal;

pub use line::line_of;
pub use refusal::{
    FilterRefusal, LoadRefusal, NameKind, PairingRefusal, PlanRefusal, ScheduleRefusal,
    SourceRefusal,
};
