// The addresses of an update.

ghost use Rattle.std.specs.Prelude.{◌≡◌, ◌<◌, length, All, IfErr, IfOk, IfSome, None, OnOk, Some, nat_eq, slice_get};
ghost use Rattle.std.specs.List.{position_from};
ghost use Rattle.std.specs.List.Sorted.{IsStrictlyIncreasing};
ghost use Rattle.std.specs.Option.{option_map};
ghost use Rattle.lu_remap.specs.Limit.{IsOver};
ghost use Rattle.lu_remap.specs.Shapes.{over_limit};
ghost use Rattle.lu_remap.specs.Sound.{AreCounted, IsSound};

use crate::error::MapError;
use crate::placing::placed;
use crate::shapes::needed_shapes;
use crate::step::pair_in;
use bm_objects::{Objects, Row};
use lu_base::Memory;
use lu_image::Pairing;
use std::alloc::Global;
use std::marker::Model;

/// The rows of the old process and of the new one, and which old heap objects move. It keeps its own copy of the old rows.
#[derive(Drop)]
pub struct AddressMap<'p> {
    pairing: &'p Pairing,
    old: Vec<Row>,
    moved: Vec<u32>,
    new: Vec<Row>,
}

impl<'p> Model for AddressMap<'p> {
    ghost use Rattle.std.specs.Prelude.{◌≤◌, length};
    ghost use Rattle.std.specs.List.Sorted.{IsStrictlyIncreasing};
    ghost use Rattle.lu_base.specs.declared.limits.TheConstants.{ENTRIES};
    ghost use Rattle.lu_remap.specs.Map.{Addresses};

    ghost Value = { Addresses };

    ghost view = { λ m. record { pairing = m.pairing.now; old = m.old.items; moved = m.moved.items; new = m.new.items } };

    ghost invariant = { λ m. IsStrictlyIncreasing m.moved.items × (length m.pairing.now.new.globals ≤ ENTRIES) };
}

/// The place of a number among rising ones, by binary search.
fn place_of(numbers: &[u32], k: u32) -> Option<usize>
    requires { IsStrictlyIncreasing numbers.now }
    ensures value { result ≡ position_from (nat_eq k) 0 numbers.now }
    ensures inside { IfSome result (λ i. i < length numbers.now) }
{
    match numbers.binary_search(&k) {
        Ok(i) => Some(i),
        Err(_) => None,
    }
}

/// The address of a row by its number.
fn address_at(rows: &[Row], number: usize) -> Option<u32>
    ensures { result ≡ option_map (λ r. r.addr) (slice_get rows.now number) }
{
    match rows.get(number) {
        None => None,
        Some(row) => Some(row.addr),
    }
}

fn copy_rows(alloc: Global, old: &Objects) -> Result<Vec<Row>, Memory>
    ensures { IfOk result (λ rows. rows.items ≡ old.now) }
{
    let mut rows = Vec::new(alloc);
    for k in 0..old.len() {
        rows.push(old.row(k))?;
    }
    Ok(rows)
}

impl<'p> AddressMap<'p> {
    ghost use Rattle.lu_remap.specs.Map.{addresses_of, new_address, new_number};

    /// The addresses of an update of the process with these rows, whose needed objects have these numbers.
    pub fn build(
        alloc: Global,
        old: &Objects,
        pairing: &'p Pairing,
        needed: &[u32],
    ) -> Result<AddressMap<'p>, MapError>
        requires sound { IsSound pairing.now }
        requires counted { AreCounted old.now }
        requires needed { All (λ k. k < length old.now) needed.now }
        requires rising { IsStrictlyIncreasing needed.now }
        ensures map { IfOk result (λ map. map ≡ addresses_of pairing.now old.now needed.now) }
        ensures within { OnOk result (over_limit pairing.now old.now 0 needed.now ≡ None) }
        ensures limit { IfErr result (IsOver (over_limit pairing.now old.now 0 needed.now)) }
    {
        let _parts = pairing.new.types.parts();
        let shapes = needed_shapes(alloc, pairing, old, needed)?;
        let new = placed(alloc, &shapes.rows)?;
        Ok(AddressMap {
            pairing,
            old: copy_rows(alloc, old)?,
            moved: shapes.moved,
            new,
        })
    }

    /// The rows of the new process, in order. It takes no memory.
    pub fn rows(&self) -> &[Row]
        ensures { result.now ≡ self.now.new }
    {
        &self.new
    }

    /// It takes no memory.
    pub fn pairing(&self) -> &'p Pairing
        ensures { result.now ≡ self.now.pairing }
    {
        self.pairing
    }

    /// Old row k. It takes no memory.
    pub fn old_row(&self, k: u32) -> Row
        requires { k < length self.now.old }
        ensures { slice_get self.now.old k ≡ Some result }
    {
        self.old[k as usize]
    }

    /// The number of the new object that is the image of old object k, if it is needed and has a pair.
    fn new_number(&self, k: u32) -> Option<usize>
        requires { k < length self.now.old }
        ensures { result ≡ new_number self.now k }
    {
        match self.old_row(k).site {
            None => {
                let pair = pair_in(self.pairing.globals.as_slice(), k)?;
                Some(pair as usize)
            }
            Some(_) => {
                let place = place_of(&self.moved, k)?;
                Some(self.pairing.new.globals.as_slice().len() + place)
            }
        }
    }

    /// The address of the image of old object k; none where it isn't needed or its site has no pair. It takes no memory.
    pub fn new_address(&self, k: u32) -> Option<u32>
        requires { k < length self.now.old }
        ensures { result ≡ new_address self.now k }
    {
        let number = self.new_number(k)?;
        address_at(&self.new, number)
    }
}
