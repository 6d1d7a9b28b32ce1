ghost use Rattle.std.specs.Prelude.{◌≡◌};

use crate::{Bytes8, Name, Shelf, ShelfFault};
use std::alloc::Global;
use std::marker::Model;

/// Files in memory whose reads never fail.
#[derive(Debug, Drop)]
pub struct CalmShelf {
    files: Vec<(Name, Bytes8)>,
}

impl Model for CalmShelf {
    ghost use Rattle.std.specs.Prelude.{List, ℕ};

    ghost Value = { List (List ℕ × List ℕ) };

    ghost view = { λ s. s.files.items };
}

impl CalmShelf {
    /// Of two files with one name the first counts. It takes no memory.
    pub fn new(files: Vec<(Name, Bytes8)>) -> Self
        ensures { result ≡ files.items }
    {
        CalmShelf { files }
    }
}

impl Shelf for CalmShelf {
    ghost use Rattle.std.specs.Prelude.{Some};
    ghost use Rattle.lu_base.specs.Files.{file_named};

    ghost holds = { λ s. Some (file_named s) };

    ghost faults = { λ _. 0 };

    fn read(&mut self, alloc: Global, name: &str, max: u64) -> Result<Bytes8, ShelfFault> {
        crate::stored::copy_of(alloc, &self.files, name, max)
    }
}
