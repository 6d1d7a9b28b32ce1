ghost use Rattle.std.specs.Prelude.{◌≡◌, nat_eq};
ghost use Rattle.std.specs.List.{list_any};

use crate::{Bytes8, Name, Shelf, ShelfFault};
use std::alloc::Global;
use std::marker::Model;

/// Files in memory, and the calls of `read` that fail.
#[derive(Debug, Drop)]
pub struct MemShelf {
    files: Vec<(Name, Bytes8)>,
    failing: Vec<u64>,
    calls: u64,
    faults: u64,
}

impl Model for MemShelf {
    ghost use Rattle.lu_base.specs.Stored.{StoredFiles};

    ghost Value = { StoredFiles };

    ghost view = { λ s. record { files = s.files.items; failing = s.failing.items; calls = s.calls; faults = s.faults } };
}

impl MemShelf {
    /// Calls are numbered from 1; of two files with one name the first counts. It takes no memory.
    pub fn new(files: Vec<(Name, Bytes8)>, failing: Vec<u64>) -> Self
        ensures { result ≡ record { files = files.items; failing = failing.items; calls = 0; faults = 0 } }
    {
        MemShelf {
            files,
            failing,
            calls: 0,
            faults: 0,
        }
    }
}

// Whether the call is among those that fail.
fn is_among(failing: &[u64], call: u64) -> bool
    ensures { result ≡ list_any (λ k. nat_eq k call) failing.now }
{
    failing.contains(&call)
}

impl Shelf for MemShelf {
    ghost use Rattle.std.specs.Prelude.{◌≡◌, ◌↔◌, Some, IsTrue};
    ghost use Rattle.lu_spec.specs.Fault.{IsCaused};
    ghost use Rattle.lu_base.specs.Files.{file_named, ReadAnswers};
    ghost use Rattle.lu_base.specs.Stored.{next_call, is_failing};

    ghost holds = { λ s. Some (file_named s.files) };

    ghost faults = { λ s. s.faults };

    fn read(&mut self, alloc: Global, name: &str, max: u64) -> Result<Bytes8, ShelfFault>
        ensures kept { Some (file_named self.new.files) ≡ Some (file_named self.old.files) }
        ensures answer { ReadAnswers (file_named self.old.files name.now) max result }
        ensures cause { IsCaused ShelfFault.Failed self.old.faults self.new.faults result }
        ensures failing { (result ≡ Err ShelfFault.Failed) ↔ IsTrue (is_failing self.old) }
        ensures counted { self.new.calls ≡ next_call self.old.calls }
        ensures plan { self.new.failing ≡ self.old.failing }
    {
        self.calls = self.calls.saturating_add(1);
        if is_among(&self.failing, self.calls) {
            self.faults = self.faults.saturating_add(1);
            return Err(ShelfFault::Failed);
        }
        crate::stored::copy_of(alloc, &self.files, name, max)
    }
}
