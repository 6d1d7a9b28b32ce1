// Why the names of an update stand for nothing.

ghost use Rattle.std.specs.Prelude.{◌≡◌};
ghost use Rattle.lu_resolve.specs.Causes.{kind_of, pair_cause};
ghost use Rattle.lu_resolve.specs.declared.error.ResolveError.TheVariants as error;

use lu_base::Memory;
use lu_image::{PairError, Table};
use lu_load_lines::{NameKind, PairingRefusal};

/// Why the names of an update stand for nothing.
#[derive(Debug, Drop)]
pub enum ResolveError {
    /// The first refusal: of its renames, of its handlers in turn, or of its last call.
    Refused(PairingRefusal),
    /// An allocation was refused.
    Memory,
}

impl From<Memory> for ResolveError {
    ghost from_gives = { λ _ e. e ≡ error.Memory };

    fn from(_: Memory) -> Self {
        ResolveError::Memory
    }
}

fn kind_of(table: Table) -> NameKind
    ensures { result ≡ kind_of table }
{
    match table {
        Table::Global => NameKind::Global,
        Table::Struct => NameKind::Struct,
        Table::Field => NameKind::Field,
        Table::Union => NameKind::Union,
        Table::Member => NameKind::Member,
        Table::Function => NameKind::Function,
        Table::Site => NameKind::Site,
    }
}

/// The cause that renames are refused.
pub fn of_pair(error: PairError) -> ResolveError
    ensures { result ≡ pair_cause error }
{
    match error {
        PairError::NoSuch { table, name } => ResolveError::Refused(PairingRefusal::NoSuch {
            kind: kind_of(table),
            name,
        }),
        PairError::Twice { table, name } => ResolveError::Refused(PairingRefusal::Twice {
            kind: kind_of(table),
            name,
        }),
        PairError::Memory => ResolveError::Memory,
    }
}
