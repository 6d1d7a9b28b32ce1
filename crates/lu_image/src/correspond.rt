// Correspondence of types.

ghost use Rattle.std.specs.Prelude.{◌≡◌};
ghost use Rattle.lu_image.specs.Correspondence.{do_pair, corresponds};
ghost use Rattle.lu_image.specs.Descent.{leaf_corresponds, both_lead};

use c_types::{Parts, Ty, TyId};

/// Whether an old number and a new number pair.
pub fn do_pair(pairs: &[Option<u32>], old: u32, new: u32) -> bool
    ensures { result ≡ do_pair pairs.now old new }
{
    match pairs.get(old as usize) {
        Some(Some(pair)) => *pair == new,
        _ => false,
    }
}

/// The types to which two pointers or two arrays lead.
fn both_lead(old: Option<Ty>, new: Option<Ty>) -> Option<(TyId, TyId)>
    ensures { result ≡ both_lead old new }
{
    match (old, new) {
        (Some(Ty::Pointer(old)), Some(Ty::Pointer(new))) => Some((old, new)),
        (Some(Ty::Array(old, _)), Some(Ty::Array(new, _))) => Some((old, new)),
        _ => None,
    }
}

/// Whether two types correspond that do not both lead on.
fn leaf_corresponds(
    structs: &[Option<u32>],
    unions: &[Option<u32>],
    old: Option<Ty>,
    new: Option<Ty>,
) -> bool
    ensures { result ≡ leaf_corresponds structs.now unions.now old new }
{
    match (old, new) {
        (Some(Ty::Int(_)), Some(Ty::Int(_))) => true,
        (Some(Ty::VoidPointer), Some(Ty::VoidPointer)) => true,
        (Some(Ty::Function(_)), Some(Ty::Function(_))) => true,
        (Some(Ty::Struct(old)), Some(Ty::Struct(new))) => do_pair(structs, old, new),
        (Some(Ty::Union(old)), Some(Ty::Union(new))) => do_pair(unions, old, new),
        _ => false,
    }
}

/// Whether a type of the old table corresponds to a type of the new one, where `structs` and `unions` have the new
/// numbers of the old structs and unions that pair.
pub fn corresponds(
    old: &Parts,
    new: &Parts,
    structs: &[Option<u32>],
    unions: &[Option<u32>],
    old_type: TyId,
    new_type: TyId,
) -> bool
    ensures { result ≡ corresponds old.now new.now structs.now unions.now old_type new_type }
{
    let mut from = old_type;
    let mut to = new_type;
    for _ in 0..old.types.as_slice().len() {
        match both_lead(old.find_type(from), new.find_type(to)) {
            Some((old, new)) => {
                from = old;
                to = new;
            }
            None => {
                return leaf_corresponds(structs, unions, old.find_type(from), new.find_type(to));
            }
        }
    }
    false
}
