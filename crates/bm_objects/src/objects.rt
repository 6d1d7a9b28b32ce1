// The table of the objects of a process.

ghost use Rattle.std.specs.Prelude.{◌≡◌, ◌<◌, ◌^◌, ◌==◌, [], ◌∷◌, ◌++◌, length, All, Any, find, slice_get, Some, OnOk, OnErr};

use crate::row::Row;
use crate::search::last_up_to;
use lu_base::Memory;
use std::alloc::Global;
use std::marker::Model;

/// The objects that a process has had so far, by address. Clauses see the list of their rows.
#[derive(Drop)]
pub struct Objects {
    rows: Vec<Row>,
}

impl Model for Objects {
    ghost use Rattle.std.specs.Prelude.{List};
    ghost use Rattle.bm_objects.specs.declared.row.Row.{Row};
    ghost use Rattle.bm_objects.specs.Table.{IsTable};

    ghost Value = { List Row };

    ghost view = { λ o. o.rows.items };

    ghost invariant = { λ o. IsTable o.rows.items };
}

impl Objects {
    ghost use Rattle.bm_objects.specs.Table.{IsTable, end_of, reaches, killed};

    /// No objects.
    pub fn fresh(alloc: Global) -> Self
        ensures { result ≡ [] }
    {
        Objects {
            rows: Vec::new(alloc),
        }
    }

    /// How many objects there are, dead ones too.
    pub fn len(&self) -> usize
        ensures count { result ≡ length self.now }
        ensures table { IsTable self.now }
    {
        self.rows.len()
    }

    /// Whether there are none.
    pub fn is_empty(&self) -> bool
        ensures { result ≡ (length self.now == 0) }
    {
        self.rows.is_empty()
    }

    /// The row at an index.
    pub fn row(&self, i: usize) -> Row
        requires { i < length self.now }
        ensures { slice_get self.now i ≡ Some result }
    {
        self.rows[i]
    }

    /// The object, live or dead, that has the address among its bytes or as its end.
    pub fn find(&self, addr: u32) -> Option<Row>
        ensures { result ≡ find (reaches addr) self.now }
    {
        let index = last_up_to(&self.rows, addr)?;
        let row = self.rows[index];
        if addr <= row.addr + row.size {
            Some(row)
        } else {
            None
        }
    }

    /// Adds an object behind all others.
    pub fn add(&mut self, row: Row) -> Result<(), Memory>
        requires above { All (λ r. end_of r < row.addr) self.old }
        requires end { end_of row < 2 ^ 32 }
        ensures ok { OnOk result (self.new ≡ self.old ++ row ∷ []) }
        ensures err { OnErr result (self.new ≡ self.old) }
    {
        self.rows.push(row)?;
        Ok(())
    }

    /// Marks the object that begins at the address as dead.
    pub fn kill(&mut self, addr: u32)
        requires { Any (λ r. r.addr ≡ addr) self.old }
        ensures { self.new ≡ killed self.old addr }
    {
        let Some(index) = last_up_to(&self.rows, addr) else {
            unreachable!()
        };
        self.rows[index].live = false;
    }
}
