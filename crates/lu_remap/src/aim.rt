// What a pointer is a pointer to.

ghost use Rattle.std.specs.Prelude.{◌≡◌};
ghost use Rattle.lu_image_store.specs.Candidates.{is_wanted};
ghost use Rattle.lu_image_store.specs.Pointers.{wanted, suits};
ghost use Rattle.lu_remap.specs.Descent.{aim_of, versions};

use c_types::TyId;
use lu_image::{Pairing, corresponds};

/// What a pointer is a pointer to: exactly a type of the old program that becomes one of the new program, or anything.
#[derive(Clone, Copy, Debug, PartialEq, Eq)]
pub enum Aim {
    Exactly { old: TyId, new: TyId },
    Anything,
}

impl Aim {
    /// Whether an old place of this type may be pointed to.
    pub fn is_wanted(self, ty: TyId) -> bool
        ensures { result ≡ is_wanted (wanted (aim_of self)) ty }
    {
        match self {
            Aim::Exactly { old, .. } => old == ty,
            Aim::Anything => true,
        }
    }

    /// Whether an old place of type `from` may become a new one of type `to`.
    pub fn suits(self, pairing: &Pairing, from: TyId, to: TyId) -> bool
        ensures { result ≡ suits (versions pairing.now) (aim_of self) from to }
    {
        match self {
            Aim::Exactly { new, .. } => to == new,
            Aim::Anything => corresponds(
                pairing.old.types.parts(),
                pairing.new.types.parts(),
                pairing.structs.as_slice(),
                pairing.unions.as_slice(),
                from,
                to,
            ),
        }
    }
}
