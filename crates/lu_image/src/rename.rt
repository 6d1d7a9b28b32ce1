// Renames, by table.

ghost use Rattle.std.specs.Prelude.{◌≡◌, ◌≤◌, ◌↔◌, length, IfOk, IfSome, IsNone, IsTrue, OnOk};
ghost use Rattle.std.specs.List.{list_any};
ghost use Rattle.lu_image.specs.Renaming.{comes_before, has_name_of, has_name_twice, place_among, with_rename, in_order, are_in_order};

use lu_base::{Memory, Name};
use std::alloc::Global;
use std::marker::Model;

/// What a rename speaks of.
#[derive(Clone, Copy, Debug, PartialEq, Eq)]
pub enum Table {
    Global,
    Struct,
    Field,
    Union,
    Member,
    Function,
    Site,
}

impl Table {
    ghost use Rattle.lu_image.specs.Renaming.{table_number};

    /// Its place in the order in which tables are tried.
    pub fn number(self) -> u32
        ensures { result ≡ table_number self }
    {
        match self {
            Table::Global => 0,
            Table::Struct => 1,
            Table::Field => 2,
            Table::Union => 3,
            Table::Member => 4,
            Table::Function => 5,
            Table::Site => 6,
        }
    }
}

/// A name of the old program and the name of its pair in the new one.
#[derive(Debug, Drop)]
pub struct Rename {
    pub table: Table,
    /// A name; `tag.name` for a field or a member, and `function#number` for a site.
    pub old: Name,
    /// A name; `function#number` for a site.
    pub new: Name,
}

/// Whether a rename comes before another one in the order of tables and then of the old names' bytes.
fn comes_before(a: &Rename, b: &Rename) -> bool
    ensures { result ≡ comes_before a.now b.now }
{
    if a.table.number() == b.table.number() {
        a.old.as_bytes().cmp(b.old.as_bytes()).is_lt()
    } else {
        a.table.number() < b.table.number()
    }
}

// Whether two renames are of one table and have one old name.
fn has_name_of(a: &Rename, b: &Rename) -> bool
    ensures { result ≡ has_name_of a.now b.now }
{
    a.table.number() == b.table.number() && a.old.as_bytes() == b.old.as_bytes()
}

fn any_has_name_of(rename: &Rename, others: &[Rename]) -> bool
    ensures { result ≡ list_any (has_name_of rename.now) others.now }
{
    others.iter().any(|other| has_name_of(rename, other))
}

fn has_name_twice(renames: &[Rename]) -> bool
    ensures { result ≡ has_name_twice renames.now }
{
    let mut rest = renames;
    while let [rename, after @ ..] = rest {
        if any_has_name_of(rename, after) {
            return true;
        }
        rest = after;
    }
    false
}

// How many stand before the first that the rename comes before.
fn place_among(rename: &Rename, renames: &[Rename]) -> usize
    ensures place { result ≡ place_among rename.now renames.now }
    ensures bound { result ≤ length renames.now }
{
    let mut place = 0;
    let mut rest = renames;
    while let [other, after @ ..] = rest {
        if comes_before(rename, other) {
            return place;
        }
        place += 1;
        rest = after;
    }
    place
}

// Puts a rename before the first that it comes before.
#[tactic(auto, using(crate::proofs::RenamesOrder::places))]
fn put(renames: &mut Vec<Rename>, rename: Rename) -> Result<(), Memory>
    ensures { OnOk result (renames.new.items ≡ with_rename rename renames.old.items) }
{
    let place = place_among(&rename, renames);
    renames.insert(place, rename)?;
    Ok(())
}

/// Renames in which no table has one old name twice, in the order of their tables and, within one, of the old names' bytes.
#[derive(Debug, Drop)]
pub struct Renames {
    items: Vec<Rename>,
}

impl Model for Renames {
    ghost use Rattle.std.specs.Prelude.{List, IsTrue};
    ghost use Rattle.lu_image.specs.declared.rename.Rename.{Rename};
    ghost use Rattle.lu_image.specs.Renaming.{are_in_order};

    ghost Value = { List Rename };

    ghost view = { λ r. r.items.items };

    ghost invariant = { λ r. IsTrue (are_in_order r.items.items) };
}

#[tactic(auto, using(crate::proofs::RenamesOrder::orders))]
fn in_order(alloc: Global, renames: Vec<Rename>) -> Result<Vec<Rename>, Memory>
    ensures { IfOk result (λ made. made.items ≡ in_order renames.items) }
{
    let mut made = Vec::new(alloc);
    let mut rest = renames;
    while let Some(rename) = rest.pop() {
        put(&mut made, rename)?;
    }
    Ok(made)
}

impl Renames {
    /// These renames, given in any order; none where a table has one old name twice.
    #[tactic(auto, using(crate::proofs::RenamesOrder::orders))]
    pub fn new(alloc: Global, renames: Vec<Rename>) -> Result<Option<Renames>, Memory>
        ensures none { IfOk result (λ made. IsNone made ↔ IsTrue (has_name_twice renames.items)) }
        ensures some { IfOk result (λ made. IfSome made (λ made. made ≡ in_order renames.items)) }
    {
        if has_name_twice(&renames) {
            return Ok(None);
        }
        Ok(Some(Renames {
            items: in_order(alloc, renames)?,
        }))
    }

    pub fn as_slice(&self) -> &[Rename]
        ensures value { result.now ≡ self.now }
        ensures ordered { IsTrue (are_in_order self.now) }
    {
        &self.items
    }
}
