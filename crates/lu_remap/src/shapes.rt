// The objects of the new process, before they have addresses.

ghost use Rattle.std.specs.Prelude.{◌≡◌, ◌+◌, ◌<◌, ◌≤◌, ◌++◌, true, is_some, length, All, IfErr, IfOk, None, OnOk, Some};
ghost use Rattle.lu_base.specs.declared.limits.TheConstants.{HEAP_BYTES};
ghost use Rattle.lu_remap.specs.Limit.{IsLimit, IsOver};
ghost use Rattle.lu_remap.specs.Shapes.{as_list, bytes_of, global_shape, global_shapes, heap_shapes, moved_numbers, number_if, over_limit, pair_of, shape_of_row};

use crate::descent::Extent;
use crate::error::MapError;
use crate::rows::{global_extent, nth};
use crate::step::pair_in;
use bm_objects::{Objects, Row};
use c_types::{TyId, TypeTable};
use lu_base::Memory;
use lu_base::limits::HEAP_BYTES;
use lu_image::{Outline, Pairing};
use std::alloc::Global;

/// The new site of an old one.
#[derive(Clone, Copy, Debug, PartialEq, Eq)]
pub struct SitePair {
    pub site: u32,
    /// The type of the elements that it allocates.
    pub elem: TyId,
}

/// A global of a type.
fn global_shape(types: &TypeTable, ty: TyId) -> Row
    ensures { result ≡ global_shape types.now ty }
{
    let _parts = types.parts();
    let Extent { elem, count, .. } = global_extent(types, ty);
    Row {
        addr: 0,
        elem,
        count,
        size: count * types.size_of(elem),
        site: None,
        live: true,
    }
}

/// The globals of a program.
pub fn global_shapes(alloc: Global, new: &Outline) -> Result<Vec<Row>, Memory>
    ensures { IfOk result (λ rows. rows.items ≡ global_shapes new.now) }
{
    let mut rows = Vec::new(alloc);
    for ty in new.globals.as_slice() {
        rows.push(global_shape(&new.types, *ty))?;
    }
    Ok(rows)
}

/// The new site of a row's, with its type; none for a global.
fn pair_of(pairing: &Pairing, site: Option<u32>) -> Option<SitePair>
    ensures { result ≡ pair_of pairing.now site }
{
    let site = pair_in(pairing.sites.as_slice(), site?)?;
    let elem = nth(pairing.new.sites.as_slice(), site)?;
    Some(SitePair { site, elem })
}

/// The new objects so far.
#[derive(Drop)]
pub struct Moving {
    pub rows: Vec<Row>,
    /// The old numbers of those that are on the heap.
    pub moved: Vec<u32>,
    /// Their bytes.
    pub total: u64,
}

impl Moving {
    /// Puts a new heap object behind the others.
    fn push(&mut self, k: u32, row: Row) -> Result<(), Memory>
        ensures rows { OnOk result (self.new.rows.items ≡ self.old.rows.items ++ as_list (Some row)) }
        ensures moved { OnOk result (self.new.moved.items ≡ self.old.moved.items ++ number_if true k) }
        ensures total { self.new.total ≡ self.old.total }
    {
        self.rows.push(row)?;
        self.moved.push(k)?;
        Ok(())
    }

    /// Puts the new object of old row k, if its site has a pair. On an error it is to be dropped.
    pub fn add(&mut self, pairing: &Pairing, k: u32, row: Row) -> Result<(), MapError>
        requires { self.old.total ≤ HEAP_BYTES }
        ensures rows { OnOk result (self.new.rows.items ≡ self.old.rows.items ++ as_list (shape_of_row pairing.now row)) }
        ensures moved { OnOk result (self.new.moved.items ≡ self.old.moved.items ++ number_if (is_some (shape_of_row pairing.now row)) k) }
        ensures total { OnOk result (self.new.total ≡ self.old.total + bytes_of (shape_of_row pairing.now row)) }
        ensures low { OnOk result (self.new.total ≤ HEAP_BYTES) }
        ensures limit { IfErr result (IsLimit (HEAP_BYTES < self.old.total + bytes_of (shape_of_row pairing.now row)) k) }
    {
        let Some(pair) = pair_of(pairing, row.site) else {
            return Ok(());
        };
        let bytes = row.count as u64 * pairing.new.types.size_of(pair.elem) as u64;
        if HEAP_BYTES < self.total + bytes {
            return Err(MapError::HeapLimit { object: k });
        }
        self.total += bytes;
        self.push(
            k,
            Row {
                addr: 0,
                elem: pair.elem,
                count: row.count,
                size: bytes as u32,
                site: Some(pair.site),
                live: true,
            },
        )?;
        Ok(())
    }
}

/// The new objects of the needed old ones, behind the new globals.
pub fn needed_shapes(
    alloc: Global,
    pairing: &Pairing,
    old: &Objects,
    needed: &[u32],
) -> Result<Moving, MapError>
    requires { All (λ k. k < length old.now) needed.now }
    ensures rows { IfOk result (λ moving. moving.rows.items ≡ global_shapes pairing.now.new ++ heap_shapes pairing.now old.now needed.now) }
    ensures moved { IfOk result (λ moving. moving.moved.items ≡ moved_numbers pairing.now old.now needed.now) }
    ensures within { OnOk result (over_limit pairing.now old.now 0 needed.now ≡ None) }
    ensures limit { IfErr result (IsOver (over_limit pairing.now old.now 0 needed.now)) }
{
    let mut moving = Moving {
        rows: global_shapes(alloc, &pairing.new)?,
        moved: Vec::new(alloc),
        total: 0,
    };
    for k in needed {
        let row = old.row(*k as usize);
        moving.add(pairing, *k, row)?;
    }
    Ok(moving)
}
