// Two programs whose entries pair.

ghost use Rattle.std.specs.Prelude.{◌≡◌, slice_get};
ghost use Rattle.std.specs.Prelude.{find};
ghost use Rattle.lu_spec.specs.Then.{then_option};
ghost use Rattle.c_types.specs.Tables.{members_of};
ghost use Rattle.lu_image.specs.Names as names;
ghost use Rattle.lu_image.specs.Names.{is_named};
ghost use Rattle.lu_image.specs.Correspondence.{pair_in, do_pair};
ghost use Rattle.lu_image_store.specs.Versions as spec;
ghost use Rattle.lu_image_store.specs.Forms.{handler_of};
ghost use Rattle.lu_scan.specs.Given.{versions, pairs_between, same_named};

use c_types::{FieldDef, Ty, TyId};
use lu_base::Name;
use lu_image::{Handler, Pairing};

/// Two programs whose entries pair, with the texts that the names of their fields number.
#[derive(Clone, Copy)]
pub struct PairedPrograms<'p> {
    pub pairing: &'p Pairing,
    pub old_names: &'p [Name],
    pub new_names: &'p [Name],
}

/// How the fields of an old struct pair with those of a new one.
#[derive(Clone, Copy)]
pub(crate) enum FieldPairs<'p> {
    /// Each has the number of its pair, if it has one.
    Numbers(&'p [Option<u32>]),
    /// Each pairs with the first of its name.
    ByName,
}

/// Whether an old number and a new number pair.
pub(crate) fn do_pair(pairs: &[Option<u32>], old: u32, new: u32) -> bool
    ensures { result ≡ do_pair pairs.now old new }
{
    match pairs.get(old as usize) {
        Some(Some(pair)) => *pair == new,
        _ => false,
    }
}

/// The new number of an old one, if it has one.
pub(crate) fn pair_in(pairs: &[Option<u32>], old: usize) -> Option<u32>
    ensures { result ≡ pair_in pairs.now old }
{
    match pairs.get(old) {
        Some(pair) => *pair,
        None => None,
    }
}

/// The entry of a number, if there is one.
fn entry_at(entries: &[u32], number: Option<u32>) -> Option<u32>
    ensures { result ≡ then_option number (slice_get entries.now) }
{
    match number {
        Some(number) => entries.get(number as usize).copied(),
        None => None,
    }
}

/// The field of a number, or the member.
pub(crate) fn field_at(fields: &[FieldDef], number: usize) -> Option<FieldDef>
    ensures { result ≡ slice_get fields.now number }
{
    match fields.get(number) {
        Some(field) => Some(*field),
        None => None,
    }
}

fn has_name(names: &[Name], field: &FieldDef, name: &[u8]) -> bool
    ensures { result ≡ is_named name.now (slice_get names.now field.now.name) }
{
    match names.get(field.name as usize) {
        Some(own) => name == own.as_bytes(),
        None => false,
    }
}

/// The first field of a name.
fn field_named(names: &[Name], fields: &[FieldDef], name: &[u8]) -> Option<FieldDef>
    ensures { result ≡ find (λ f. is_named name.now (slice_get names.now f.name)) fields.now }
{
    let mut rest = fields;
    while let [field, after @ ..] = rest {
        if has_name(names, field, name) {
            return Some(*field);
        }
        rest = after;
    }
    None
}

impl PairedPrograms<'_> {
    /// A type of the new program.
    pub fn new_type(&self, number: TyId) -> Option<Ty>
        ensures { result ≡ spec.new_type (versions self.now) number }
    {
        self.pairing.new.types.parts().find_type(number)
    }

    /// The type of an old global, if there is one.
    pub fn old_global(&self, number: usize) -> Option<TyId>
        ensures { result ≡ slice_get self.now.pairing.now.old.globals number }
    {
        self.pairing.old.globals.as_slice().get(number).copied()
    }

    /// The new number of an old struct, if it has a pair.
    pub fn paired_struct(&self, number: u32) -> Option<u32>
        ensures { result ≡ pair_in self.now.pairing.now.structs number }
    {
        pair_in(self.pairing.structs.as_slice(), number as usize)
    }

    /// The new number of an old union, if it has a pair.
    pub fn paired_union(&self, number: u32) -> Option<u32>
        ensures { result ≡ pair_in self.now.pairing.now.unions number }
    {
        pair_in(self.pairing.unions.as_slice(), number as usize)
    }

    /// The type of the new global that pairs with an old one, if there is one.
    pub fn paired_global(&self, number: usize) -> Option<TyId>
        ensures { result ≡ spec.paired_global (versions self.now) number }
    {
        let pair = pair_in(self.pairing.globals.as_slice(), number);
        entry_at(self.pairing.new.globals.as_slice(), pair)
    }

    /// The type of the elements of the new site that pairs with an old one, if there is one.
    pub fn paired_site(&self, site: u32) -> Option<TyId>
        ensures { result ≡ spec.paired_site (versions self.now) site }
    {
        let pair = pair_in(self.pairing.sites.as_slice(), site as usize);
        entry_at(self.pairing.new.sites.as_slice(), pair)
    }

    /// The handler of an old struct, if it has one.
    pub(crate) fn handler_of(&self, structure: u32) -> Option<Handler>
        ensures { result ≡ handler_of (versions self.now) structure }
    {
        let mut rest = self.pairing.handlers.as_slice();
        while let [handler, after @ ..] = rest {
            if handler.structure == structure {
                return Some(*handler);
            }
            rest = after;
        }
        None
    }

    /// The new number of each field of an old struct.
    pub(crate) fn field_pairs(&self, structure: u32) -> &[Option<u32>]
        ensures { result.now ≡ spec.field_pairs (versions self.now) structure }
    {
        match self.pairing.fields.as_slice().get(structure as usize) {
            Some(pairs) => pairs.as_slice(),
            None => &[],
        }
    }

    /// The new number of each member of an old union.
    pub(crate) fn member_pairs(&self, number: u32) -> &[Option<u32>]
        ensures { result.now ≡ spec.member_pairs (versions self.now) number }
    {
        match self.pairing.members.as_slice().get(number as usize) {
            Some(pairs) => pairs.as_slice(),
            None => &[],
        }
    }
}

fn numbered_field(pairs: &[Option<u32>], new: &[FieldDef], number: usize) -> Option<FieldDef>
    ensures { result ≡ then_option (names.entry_at pairs.now number) (slice_get new.now) }
{
    match pairs.get(number) {
        Some(Some(pair)) => field_at(new, *pair as usize),
        _ => None,
    }
}

/// The first new field of an old field's name.
fn named_field(programs: &PairedPrograms, field: &FieldDef, new: &[FieldDef]) -> Option<FieldDef>
    ensures { result ≡ same_named (versions programs.now) new.now field.now }
{
    match programs.old_names.get(field.name as usize) {
        Some(name) => field_named(programs.new_names, new, name.as_bytes()),
        None => None,
    }
}

/// The new field of the old field of a number.
pub(crate) fn paired_field(
    programs: &PairedPrograms,
    old: &[FieldDef],
    new: &[FieldDef],
    pairs: &FieldPairs,
    number: usize,
) -> Option<FieldDef>
    ensures { result ≡ then_option
        (names.entry_at (pairs_between (versions programs.now) old.now new.now pairs.now) number)
        (slice_get new.now) }
{
    match pairs {
        FieldPairs::Numbers(numbers) => numbered_field(numbers, new, number),
        FieldPairs::ByName => match field_at(old, number) {
            Some(field) => named_field(programs, &field, new),
            None => None,
        },
    }
}

/// The new member of the old member of a number.
pub(crate) fn paired_member(
    programs: &PairedPrograms,
    old: u32,
    new: u32,
    number: u32,
) -> Option<FieldDef>
    ensures { result ≡ then_option (pair_in (spec.member_pairs (versions programs.now) old) number)
        (slice_get (members_of (spec.new_types (versions programs.now)) new)) }
{
    match pair_in(programs.member_pairs(old), number as usize) {
        Some(pair) => field_at(
            programs.pairing.new.types.parts().members_of(new),
            pair as usize,
        ),
        None => None,
    }
}
