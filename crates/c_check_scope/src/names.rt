// Names and their numbers.

ghost use Rattle.std.specs.Prelude.{◌≡◌, ◌<◌, [], IfOk, OnErr, length};
ghost use Rattle.c_check_scope.specs.Names.{number_named, with_name, place_of, object_name};
ghost use Rattle.c_ast.specs.Trees.{object};

use c_ast::decl::Named;
use indexmap::IndexSet;
use lu_base::Name;
use std::alloc::{AllocError, Global};
use std::marker::Model;

/// Distinct names, numbered by first appearance, each found without a search over all.
#[derive(Drop)]
pub struct Names {
    set: IndexSet<String>,
}

impl Model for Names {
    ghost use Rattle.std.specs.Prelude.{ℕ, List, map, string_bytes};

    ghost Value = { List (List ℕ) };

    ghost view = { λ n. map string_bytes n.set.keys };
}

impl Names {
    /// It takes no memory.
    pub fn new(alloc: Global) -> Names
        ensures { result ≡ [] }
    {
        Names {
            set: IndexSet::new(alloc),
        }
    }

    pub fn len(&self) -> usize
        ensures { result ≡ length self.now }
    {
        self.set.len()
    }

    /// The number of a name; none where it isn't among them.
    #[tactic(auto, unfolding(crate::specs::Names::number_named))]
    pub fn number_of(&self, name: &Name) -> Option<usize>
        ensures { result ≡ number_named self.now name.now }
    {
        self.set.get_index_of(name.as_str())
    }

    /// Adds a name at the end, if it isn't among them, and gives its number.
    pub fn add(&mut self, alloc: Global, name: &Name) -> Result<usize, AllocError>
        ensures names { IfOk result (λ number. self.new ≡ with_name self.old name.now) }
        ensures number { IfOk result (λ number. number ≡ place_of self.old name.now) }
        ensures unchanged { OnErr result (self.new ≡ self.old) }
    {
        let text = String::from_str(alloc, name.as_str())?;
        let (number, _) = self.set.insert_full(text)?;
        Ok(number)
    }
}

/// The name of a field or global.
pub fn object_name(named: &Named) -> &Name
    ensures { result.now ≡ object_name (object named.now) }
{
    match named {
        Named::Object(_, name, _) => name,
        Named::Function(_, name, _, _) => name,
    }
}
