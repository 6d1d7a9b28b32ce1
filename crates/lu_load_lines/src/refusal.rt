// Why the files of a run are refused.

use lu_base::Name;
use plan_file::{Key, LimitedList};

/// Why the files of a run are no setup: the first cause in the order in which they are read.
#[derive(Debug, Drop)]
pub enum LoadRefusal {
    Plan(PlanRefusal),
    /// The source in the file of that name.
    Source { file: Name, why: SourceRefusal },
    /// A function of the source is longer than machine code may be.
    TooLong { file: Name, function: Name },
    /// The filter of that update.
    Filter { update: Name, why: FilterRefusal },
    /// The renames, the handlers or `after` of that update.
    Pairing { update: Name, why: PairingRefusal },
    Schedule(ScheduleRefusal),
}

/// Why a plan is refused.
#[derive(Clone, Copy, Debug, PartialEq, Eq)]
pub enum PlanRefusal {
    /// There is no such file.
    Absent,
    /// The file is above its limit.
    TooLarge,
    /// It is no document of TOML.
    NotToml,
    /// A key is wanted, or hasn't its form.
    Field { key: Key },
    /// A list has too many or too few tables.
    Limit { list: LimitedList },
}

/// Why a source is refused. Lines, columns and declarations count from 1, and a column counts bytes.
#[derive(Clone, Copy, Debug, PartialEq, Eq)]
pub enum SourceRefusal {
    /// There is no such file.
    Absent,
    /// The file is above its limit.
    TooLarge,
    /// No token begins here, or one that is not complete.
    BadByte { line: usize, col: usize },
    /// The number that begins here has no form of a number, or a value that no type holds.
    BadNumber { line: usize, col: usize },
    /// The declaration is the first that can't be read.
    Syntax { decl: usize },
    /// The declaration is the first that can't be read, and a limit of nesting is passed in it.
    TooDeep { decl: usize },
    /// The declaration is the first that breaks a rule, and this is the least code of the rules that it breaks.
    Rule { decl: usize, code: u32 },
}

/// Why the text of a filter is refused. A column counts bytes from 1, within its own line of the text.
#[derive(Clone, Copy, Debug, PartialEq, Eq)]
pub enum FilterRefusal {
    /// No token begins here, or one that is not complete.
    BadByte { col: usize },
    /// The number that begins here has no form of a number, or a value that no type holds.
    BadNumber { col: usize },
    /// The text is no expression.
    Syntax,
    /// The text is no expression, and a limit of nesting is passed in it.
    TooDeep,
    /// The least code of the rules that the expression breaks.
    Rule { code: u32 },
    /// The expression's type is no integer type.
    NotInteger,
}

/// Why two programs aren't paired as an update says.
#[derive(Debug, Drop)]
pub enum PairingRefusal {
    /// The name is none of a thing of that kind, or of none that the plan may name here.
    NoSuch { kind: NameKind, name: Name },
    /// The name was given by an earlier rename, or has an earlier handler.
    Twice { kind: NameKind, name: Name },
}

/// What a name of an update is the name of.
#[derive(Clone, Copy, Debug, PartialEq, Eq)]
pub enum NameKind {
    Global,
    Struct,
    Field,
    Union,
    Member,
    Function,
    Site,
    /// A struct or a function of a handler.
    Handler,
    /// The function that is called once the state has moved.
    After,
}

/// Why a schedule is refused.
#[derive(Clone, Copy, Debug, PartialEq, Eq)]
pub enum ScheduleRefusal {
    /// There is no such file.
    Absent,
    /// The file is above its limit.
    TooLarge,
    /// The line of this number, from 1, is the first that is no event of the plan.
    Line { number: usize },
    /// The basic events pass their limit before such a line.
    Limit,
}
