// The renames of one table, and the pairs of names under them.

ghost use Rattle.std.specs.Prelude.{◌≡◌, ◌<◌, ◌^◌, [], map, take, length, IfOk, slice_get};
ghost use Rattle.std.specs.Option.{option_copied};
ghost use Rattle.lu_spec.specs.Then.{then_option};
ghost use Rattle.lu_image.specs.Renaming.{is_in_table};
ghost use Rattle.lu_image.specs.Names.{find};
ghost use Rattle.lu_image.specs.Pairing.{of_table, before_dot, is_of_part, given_name, old_names, given_names, renamed, is_given, find_free, pair_by, pair_names};
ghost use Rattle.lu_image.specs.RenameRefusal.{rename_refusal, first_refusal};
ghost use Rattle.lu_pair.specs.Refusing.{IsRefusedBy};

use crate::names::NameList;
use lu_base::{Memory, Name};
use lu_image::{PairError, Rename, Table};
use std::alloc::Global;
use std::marker::Model;

/// The renames of a table, in which an old name and a new name are found fast.
#[derive(Drop)]
pub struct Renaming {
    renames: Vec<Rename>,
    old: NameList,
    given: NameList,
}

impl Model for Renaming {
    ghost use Rattle.std.specs.Prelude.{List};
    ghost use Rattle.lu_image.specs.declared.rename.Rename.{Rename};
    ghost use Rattle.lu_pair.specs.Refusing.{HasNames};

    ghost Value = { List Rename };

    ghost view = { λ r. r.renames.items };

    ghost invariant = { λ r. HasNames r.renames.items r.old r.given };
}

fn is_in_table(table: Table, rename: &Rename) -> bool
    ensures { result ≡ is_in_table table rename.now }
{
    rename.table.number() == table.number()
}

fn copy_rename(alloc: Global, rename: &Rename) -> Result<Rename, Memory>
    ensures { IfOk result (λ copy. copy ≡ rename.now) }
{
    Ok(Rename {
        table: rename.table,
        old: rename.old.copy(alloc)?,
        new: rename.new.copy(alloc)?,
    })
}

fn renames_of(alloc: Global, table: Table, renames: &[Rename]) -> Result<Vec<Rename>, Memory>
    ensures { IfOk result (λ found. found.items ≡ of_table table renames.now) }
{
    let mut found = Vec::new(alloc);
    for rename in renames {
        if is_in_table(table, rename) {
            found.push(copy_rename(alloc, rename)?)?;
        }
    }
    Ok(found)
}

/// A text up to its first dot.
fn before_dot(text: &str) -> &str
    ensures { result.now ≡ before_dot text.now }
{
    match text.split_once('.') {
        None => text,
        Some((before, _)) => before,
    }
}

fn is_of_part(table: Table) -> bool
    ensures { result ≡ is_of_part table }
{
    matches!(table, Table::Field | Table::Member)
}

/// The new name that a rename gives, that of a field or a member behind the tag of the old name.
fn given_name(alloc: Global, rename: &Rename) -> Result<Name, Memory>
    ensures { IfOk result (λ name. name ≡ given_name rename.now) }
{
    if is_of_part(rename.table) {
        let mut text = String::from_str(alloc, before_dot(rename.old.as_str()))?;
        text.push_str(".")?;
        text.push_str(rename.new.as_str())?;
        Ok(Name::new(text))
    } else {
        rename.new.copy(alloc)
    }
}

fn old_names(alloc: Global, renames: &[Rename]) -> Result<Vec<Option<Name>>, Memory>
    ensures { IfOk result (λ names. names.items ≡ old_names renames.now) }
{
    let mut names = Vec::new(alloc);
    for rename in renames {
        names.push(Some(rename.old.copy(alloc)?))?;
    }
    Ok(names)
}

fn given_names(alloc: Global, renames: &[Rename]) -> Result<Vec<Option<Name>>, Memory>
    ensures { IfOk result (λ names. names.items ≡ given_names renames.now) }
{
    let mut names = Vec::new(alloc);
    for rename in renames {
        names.push(Some(given_name(alloc, rename)?))?;
    }
    Ok(names)
}

/// The place of a name's first entry as a number.
fn number_of(list: &NameList, name: &Name) -> Option<u32>
    requires { length list.now < 2 ^ 32 }
    ensures { result ≡ find name.now list.now }
{
    match list.find(name) {
        None => None,
        Some(place) => Some(place as u32),
    }
}

impl Renaming {
    /// The renames of a table.
    pub fn of_table(alloc: Global, table: Table, renames: &[Rename]) -> Result<Renaming, Memory>
        ensures { IfOk result (λ renaming. renaming ≡ of_table table renames.now) }
    {
        let renames = renames_of(alloc, table, renames)?;
        let old = NameList::new(alloc, old_names(alloc, &renames)?)?;
        let given = NameList::new(alloc, given_names(alloc, &renames)?)?;
        Ok(Renaming {
            renames,
            old,
            given,
        })
    }

    /// The new name that the renames give an entry's old name.
    fn renamed(&self, own: &Option<Name>) -> Option<&Name>
        ensures { option_copied result ≡ then_option own.now (renamed self.now) }
    {
        match own {
            None => None,
            Some(own) => match self.old.find(own) {
                None => None,
                Some(place) => self.given.get(place),
            },
        }
    }

    /// The new entry of a name, unless a rename gives that name.
    fn find_free(&self, new: &NameList, wanted: &Option<Name>) -> Option<u32>
        requires { length new.now < 2 ^ 32 }
        ensures { result ≡ then_option wanted.now (find_free self.now new.now) }
    {
        match wanted {
            None => None,
            Some(wanted) => {
                if self.given.find(wanted).is_some() {
                    None
                } else {
                    number_of(new, wanted)
                }
            }
        }
    }

    /// The pair of an entry, among new entries of these names: as the renames say, or the one of the name that is wanted.
    pub fn pair_by(&self, new: &NameList, own: &Option<Name>, wanted: &Option<Name>) -> Option<u32>
        requires { length new.now < 2 ^ 32 }
        ensures { result ≡ pair_by self.now new.now own.now wanted.now }
    {
        match self.renamed(own) {
            Some(name) => number_of(new, name),
            None => self.find_free(new, wanted),
        }
    }

    /// The pairs of entries by their names.
    pub fn pair_names(
        &self,
        alloc: Global,
        old: &[Option<Name>],
        new: &NameList,
    ) -> Result<Vec<Option<u32>>, Memory>
        requires { length new.now < 2 ^ 32 }
        ensures { IfOk result (λ pairs. pairs.items ≡ pair_names self.now old.now new.now) }
    {
        let mut pairs = Vec::new(alloc);
        for name in old {
            pairs.push(self.pair_by(new, name, name))?;
        }
        Ok(pairs)
    }

    /// Whether one of the first renames gives a name.
    fn is_given_before(&self, name: &Name, count: usize) -> bool
        ensures { result ≡ is_given (take count self.now) name.now }
    {
        match self.given.find(name) {
            None => false,
            Some(place) => place < count,
        }
    }

    /// The refusal of a rename, whose place among the renames is given.
    fn check_one(
        &self,
        alloc: Global,
        old: &NameList,
        new: &NameList,
        rename: &Rename,
        place: usize,
    ) -> Result<(), PairError>
        ensures { IsRefusedBy (rename_refusal old.now new.now (take place self.now) rename.now) result }
    {
        if old.find(&rename.old).is_none() {
            return Err(PairError::NoSuch {
                table: rename.table,
                name: rename.old.copy(alloc)?,
            });
        }
        let given = given_name(alloc, rename)?;
        if new.find(&given).is_none() {
            return Err(PairError::NoSuch {
                table: rename.table,
                name: rename.new.copy(alloc)?,
            });
        }
        if self.is_given_before(&given, place) {
            return Err(PairError::Twice {
                table: rename.table,
                name: rename.new.copy(alloc)?,
            });
        }
        Ok(())
    }

    /// The first refusal of the renames, where the old entries have the names `old` and the new ones the names `new`.
    pub fn check(&self, alloc: Global, old: &NameList, new: &NameList) -> Result<(), PairError>
        ensures { IsRefusedBy (first_refusal old.now new.now [] self.now) result }
    {
        for (place, rename) in self.renames.iter().enumerate() {
            self.check_one(alloc, old, new, rename, place)?;
        }
        Ok(())
    }
}
