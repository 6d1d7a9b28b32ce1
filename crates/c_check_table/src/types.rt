// Types, each once.

ghost use Rattle.std.specs.Prelude.{◌≡◌, ◌++◌, ◌∷◌, [], IfOk, OnErr, length, not, slice_get, if◌then◌else◌};
ghost use Rattle.std.specs.List.{list_any};
ghost use Rattle.c_check_scope.specs.Numbers.{same_type};
ghost use Rattle.c_check_table.specs.Drafts.{place_of};

use c_types::{Sequence, Ty, TyId};
use indexmap::IndexSet;
use std::alloc::{AllocError, Global};
use std::marker::Model;

/// Types numbered by first appearance, each found without a search over all.
#[derive(Drop)]
pub struct TypeList {
    set: IndexSet<Ty>,
}

impl Model for TypeList {
    ghost use Rattle.std.specs.Prelude.{List};
    ghost use Rattle.c_types.specs.declared.parts.Ty.{Ty};

    ghost Value = { List Ty };

    ghost view = { λ t. t.set.keys };
}

impl TypeList {
    /// It takes no memory.
    pub fn new(alloc: Global) -> TypeList
        ensures { result ≡ [] }
    {
        TypeList {
            set: IndexSet::new(alloc),
        }
    }

    /// The type of a number; none where there is no such type.
    pub fn get(&self, number: TyId) -> Option<Ty>
        ensures { result ≡ slice_get self.now number }
    {
        match self.set.get_index(number as usize) {
            None => None,
            Some(ty) => Some(*ty),
        }
    }

    /// The number of a type; where it isn't there, the number that it would have.
    #[tactic(auto, using(crate::proofs::Places::at_end))]
    pub fn place_of(&self, ty: Ty) -> usize
        ensures { result ≡ place_of self.now ty }
    {
        match self.set.get_index_of(&ty) {
            None => self.set.len(),
            Some(number) => number,
        }
    }

    /// Adds a type at the end, if it isn't there. Gives its number, and whether it is new.
    pub fn add(&mut self, ty: Ty) -> Result<(usize, bool), AllocError>
        ensures types { IfOk result (λ added. self.new ≡ if list_any (same_type ty) self.old then self.old else self.old ++ (ty ∷ [])) }
        ensures number { IfOk result (λ added. added.0 ≡ place_of self.old ty) }
        ensures is_new { IfOk result (λ added. added.1 ≡ not (list_any (same_type ty) self.old)) }
        ensures unchanged { OnErr result (self.new ≡ self.old) }
    {
        let added = self.set.insert_full(ty)?;
        Ok(added)
    }

    /// The types in order.
    pub fn copy(&self, alloc: Global) -> Result<Sequence<Ty>, AllocError>
        ensures { IfOk result (λ types. types ≡ self.now) }
    {
        Ok(Sequence::from_vec(Vec::from_slice(alloc, self.set.as_slice())?))
    }
}
