// Integer promotion and the usual arithmetic conversions.

ghost use Rattle.std.specs.Prelude.{◌≡◌};
ghost use Rattle.c_check_scope.specs.Integers.{promoted, rank, common};

use c_types::IntKind;

/// The promoted type: `int` for a narrower one, else the type itself.
#[tactic(auto, unfolding(crate::specs::Integers::promoted))]
pub fn promoted(kind: IntKind) -> IntKind
    ensures { result ≡ promoted kind }
{
    match kind {
        IntKind::Char | IntKind::UChar | IntKind::Short | IntKind::UShort | IntKind::Int => {
            IntKind::Int
        }
        IntKind::UInt => IntKind::UInt,
        IntKind::LongLong => IntKind::LongLong,
        IntKind::ULongLong => IntKind::ULongLong,
    }
}

#[tactic(auto, unfolding(crate::specs::Integers::rank))]
fn rank(kind: IntKind) -> u8
    ensures { result ≡ rank kind }
{
    match kind {
        IntKind::UInt => 1,
        IntKind::LongLong => 2,
        IntKind::ULongLong => 3,
        _ => 0,
    }
}

/// The type in which an operator works on integers of two types: the later of their promoted types in the order
/// int, unsigned int, long long, unsigned long long.
#[tactic(auto, unfolding(crate::specs::Integers::common))]
pub fn common(a: IntKind, b: IntKind) -> IntKind
    ensures { result ≡ common a b }
{
    let a = promoted(a);
    let b = promoted(b);
    if rank(a) < rank(b) { b } else { a }
}
