// What belongs together in two programs.

ghost use Rattle.std.specs.Prelude.{◌≡◌, IfOk, IsTrue};
ghost use Rattle.std.specs.List.{list_all};
ghost use Rattle.plan_file.specs.Kept.{keeps_rename};
ghost use Rattle.plan_file.specs.Renames.{are_in_order};
ghost use Rattle.src_meaning.specs.Valid.{IsValid};
ghost use Rattle.lu_image.specs.RenameRefusal as spec;
ghost use Rattle.lu_image.specs.Pairs.{Pairs};
ghost use Rattle.lu_resolve.specs.Causes.{Gives};
ghost use Rattle.lu_resolve.specs.Renames as renames;
ghost use Rattle.lu_resolve.specs.Updates.{dangling_of, or_cause, resolved};

use crate::ResolveError;
use crate::error::of_pair;
use crate::handler::{handlers_of, last_of};
use crate::rename::renames_of;
use lu_image::{Dangling, Pairing};
use lu_pair::pair;
use plan_file::Update;
use src_tree::program::Program;
use std::alloc::Global;

fn dangling_of(planned: plan_file::Dangling) -> Dangling
    ensures { result ≡ dangling_of planned }
{
    match planned {
        plan_file::Dangling::Refuse => Dangling::Refuse,
        plan_file::Dangling::Null => Dangling::Null,
    }
}

/// The pairing by the renames of an update alone.
fn renamed(
    alloc: Global,
    update: &Update,
    old: &Program,
    new: &Program,
) -> Result<Pairing, ResolveError>
    requires old_valid { IsValid old.now }
    requires new_valid { IsValid new.now }
    requires forms { IsTrue (list_all keeps_rename update.now.rename) }
    requires order { IsTrue (are_in_order update.now.rename) }
    ensures { Gives (or_cause (spec.pair old.now new.now (renames.renames_of update.now.rename))) result }
{
    let renames = renames_of(alloc, update.rename.as_slice())?;
    match pair(alloc, old, new, &renames) {
        Ok(pairing) => Ok(pairing),
        Err(error) => Err(of_pair(error)),
    }
}

/// What belongs together in the valid program that an update replaces and the valid one that it brings.
///
/// # Errors
///
/// `Refused` with the first refusal: of its renames by their tables and within one by the old names' bytes, of its handlers
/// in turn, and of its last call. `Memory` where an allocation was refused.
pub fn resolve(
    alloc: Global,
    update: &Update,
    old: &Program,
    new: &Program,
) -> Result<Pairing, ResolveError>
    requires old_valid { IsValid old.now }
    requires new_valid { IsValid new.now }
    requires forms { IsTrue (list_all keeps_rename update.now.rename) }
    requires order { IsTrue (are_in_order update.now.rename) }
    ensures given { Gives (resolved old.now new.now update.now) result }
    ensures pairs { IfOk result (Pairs old.now new.now) }
{
    let mut pairing = renamed(alloc, update, old, new)?;
    let structs = pairing.structs.as_slice();
    let handlers = handlers_of(alloc, old, new, structs, update.handler.as_slice())?;
    let after = last_of(alloc, new, &update.after)?;
    pairing.dangling = dangling_of(update.dangling);
    pairing.handlers = handlers;
    pairing.after = after;
    Ok(pairing)
}
