// The number of a type.

ghost use Rattle.std.specs.Prelude.{◌≡◌, IfOk};
ghost use Rattle.c_types.specs.Refusal.{IsBuilt};
ghost use Rattle.c_check_scope.specs.Numbers.{number_of};

use c_types::{Parts, Ty, TyId, TypeTable};
use indexmap::IndexSet;
use std::alloc::{AllocError, Global};
use std::marker::Model;

/// The parts of a table of types, in which the number of a type is found without a search over all types.
#[derive(Drop)]
pub struct Types {
    parts: Parts,
    numbers: IndexSet<Ty>,
}

impl Model for Types {
    ghost use Rattle.std.specs.Prelude.{◌≡◌};
    ghost use Rattle.c_types.specs.declared.parts.Parts.{Parts};
    ghost use Rattle.c_types.specs.Refusal.{IsBuilt};

    ghost Value = { Parts };

    ghost view = { λ t. t.parts };

    ghost invariant = { λ t. IsBuilt t.parts × (t.numbers.keys ≡ t.parts.types) };
}

fn numbered(alloc: Global, parts: &Parts) -> Result<IndexSet<Ty>, AllocError>
    requires { IsBuilt parts.now }
    ensures { IfOk result (λ numbers. numbers.keys ≡ parts.now.types) }
{
    let mut numbers = IndexSet::new(alloc);
    for ty in parts.types.as_slice() {
        numbers.insert(*ty)?;
    }
    Ok(numbers)
}

impl Types {
    /// The parts of a table.
    pub fn new(alloc: Global, table: &TypeTable) -> Result<Types, AllocError>
        ensures { IfOk result (λ types. types ≡ table.now) }
    {
        let parts = table.parts().copy(alloc)?;
        let numbers = numbered(alloc, &parts)?;
        Ok(Types { parts, numbers })
    }

    pub fn parts(&self) -> &Parts
        ensures value { result.now ≡ self.now }
        ensures built { IsBuilt self.now }
    {
        &self.parts
    }

    /// The number of a type; 0 where there is no such type.
    #[tactic(auto, unfolding(crate::specs::Numbers::number_of))]
    pub fn number_of(&self, ty: Ty) -> TyId
        ensures { result ≡ number_of self.now.types ty }
    {
        match self.numbers.get_index_of(&ty) {
            None => 0,
            Some(number) => number as TyId,
        }
    }
}
