// A walk over the needed objects of a process, one a step.

ghost use Rattle.std.specs.Prelude.{◌≡◌, ◌↔◌, ◌<◌, IsSome, ◌^◌, ℕ, Some, length, All, IfOk, OnErr};
ghost use Rattle.bm_mem.specs.Content.{Content};
ghost use Rattle.bm_code.specs.Mapped.{IsMapped};
ghost use Rattle.lu_mark.specs.Marking.{begun, next_in, stepped, state_of};
ghost use Rattle.lu_scan.specs.Given.{versions};
ghost use Rattle.lu_walk.specs.Rows.{root_rows};
ghost use Rattle.lu_walk.specs.ObjectWords.{targets_at};
ghost use Rattle.lu_walk.specs.Walking.{IsWalkOf, GoesOnOf};

use crate::bytes::object_bytes;
use crate::objects::put_words;
use crate::rows::{roots, targets_of};
use bm_mem::Bytes;
use bm_objects::Objects;
use lu_base::Memory;
use lu_mark::{Marks, WalkState};
use lu_scan::PairedPrograms;
use std::alloc::Global;

/// The live objects of the heap to which the carried pointers of an object go, in order.
fn targets_at<B: Bytes>(
    alloc: Global,
    memory: &B,
    rows: &Objects,
    programs: &PairedPrograms,
    number: u32,
) -> Result<Vec<u32>, Memory>
    requires count { length rows.now < 2 ^ 32 }
    requires mapped { IsMapped (B.content memory.now) rows.now }
    requires inside { number < length rows.now }
    ensures value { IfOk result (λ targets. targets.items
        ≡ targets_at (versions programs.now) (B.content memory.now) rows.now number) }
    ensures inside { IfOk result (λ targets. All (λ i. i < length rows.now) targets.items) }
{
    let row = rows.row(number as usize);
    if !row.live {
        return Ok(Vec::new(alloc));
    }
    let bytes = object_bytes(alloc, memory, &row)?;
    let mut words = Vec::new(alloc);
    put_words(programs, number as usize, &row, &bytes, &mut words)?;
    targets_of(alloc, rows, &words)
}

/// The needed objects of a process that were found so far, of which the first ones were walked.
#[derive(Drop)]
pub struct Walk {
    pub marks: Marks,
}

impl Walk {
    /// A walk over the objects of a process, which begins at the globals that have a pair.
    pub fn begin(alloc: Global, rows: &Objects, programs: &PairedPrograms) -> Result<Walk, Memory>
        ensures value { IfOk result (λ walk.
            walk.marks ≡ begun (length rows.now) (root_rows (versions programs.now) rows.now)) }

        // Over each store for which the process stands.
        ensures walk { IfOk result (λ walk. (content : Content)
            → IsWalkOf (versions programs.now) content rows.now walk.marks) }
    {
        let Ok(count) = u32::try_from(rows.len()) else {
            return Err(Memory);
        };
        let found = roots(alloc, programs, rows, count)?;
        let marks = Marks::begin(alloc, count, &found)?;
        Ok(Walk { marks })
    }

    /// How many objects were walked.
    pub fn walked(&self) -> u32
        ensures { result ≡ self.now.marks.walked }
    {
        self.marks.walked()
    }

    /// The object that the next step walks; none where each object that was found was walked.
    pub fn next(&self) -> Option<u32>
        ensures value { result ≡ next_in self.now.marks }
        ensures more { IsSome result ↔ (self.now.marks.walked < length self.now.marks.marked) }
    {
        self.marks.next()
    }

    /// The objects that were found, in the order in which they are walked; once the walk is done, by their numbers.
    pub fn needed(&self) -> &[u32]
        ensures { result.now ≡ self.now.marks.marked }
    {
        self.marks.marked()
    }

    /// Walks the next object. On Memory the next call walks the same object.
    pub fn step<B: Bytes>(
        &mut self,
        alloc: Global,
        memory: &B,
        rows: &Objects,
        programs: &PairedPrograms,
    ) -> Result<WalkState, Memory>
        requires more { self.old.marks.walked < length self.old.marks.marked }
        requires size { self.old.marks.size ≡ length rows.now }
        requires mapped { IsMapped (B.content memory.now) rows.now }
        ensures value { IfOk result (λ state. (k : ℕ) → next_in self.old.marks ≡ Some k
            → self.new.marks ≡ stepped self.old.marks
            (targets_at (versions programs.now) (B.content memory.now) rows.now k)) }
        ensures state { IfOk result (λ state. state ≡ state_of self.new.marks) }
        ensures more { IfOk result (λ state. (state ≡ WalkState.More)
            ↔ (self.new.marks.walked < length self.new.marks.marked)) }
        ensures size { self.new.marks.size ≡ self.old.marks.size }
        ensures err { OnErr result (self.new.marks ≡ self.old.marks) }

        // Over each store for which the process stands.
        ensures goes_on { IfOk result (GoesOnOf (versions programs.now) (B.content memory.now)
            rows.now self.old.marks self.new.marks) }
    {
        let _size = self.marks.size();
        let Some(number) = self.marks.next() else {
            unreachable!()
        };
        let targets = targets_at(alloc, memory, rows, programs, number)?;
        Ok(self.marks.step(&targets))
    }
}
