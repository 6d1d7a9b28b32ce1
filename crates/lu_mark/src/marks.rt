// Marks of objects, and a walk over the marked ones.

ghost use Rattle.std.specs.Prelude.{◌≡◌, ◌↔◌, ◌+◌, ◌^◌, ◌<◌, ◌≤◌, ◌==◌, [], IsSome, ℕ, Bool, Some, List, length, All, IfOk, IfSome, false, replicate, slice_get, vec_capacity};
ghost use Rattle.lu_image_store.specs.Needed.{Graph};
ghost use Rattle.lu_mark.specs.Marking.{with_mark, with_marks, begun, next_in, stepped, state_of, flagged};
ghost use Rattle.lu_mark.specs.Walks.{AreRoots, AreNext, IsWalk, GoesOn};

use lu_base::Memory;
use std::alloc::Global;
use std::marker::Model;

/// Whether a walk goes on.
#[derive(Clone, Copy, Debug, PartialEq, Eq)]
pub enum WalkState {
    /// A marked object was not walked yet.
    More,
    /// Each marked object was walked.
    Done,
}

/// So many flags, none of them set.
fn clear_flags(alloc: Global, count: u32) -> Result<Vec<bool>, Memory>
    ensures { IfOk result (λ flags. flags.items ≡ replicate count false) }
{
    Ok(vec![in alloc; false; count as usize]?)
}

/// The numbers of the flags that are set, in place of what stands in `numbers`.
fn list_set(flags: &[bool], numbers: &mut Vec<u32>)
    requires count { length flags.now < 2 ^ 32 }
    requires room { length flags.now ≤ vec_capacity numbers.old }
    ensures numbers { numbers.new.items ≡ flagged flags.now }
    ensures capacity { vec_capacity numbers.new ≡ vec_capacity numbers.old }
{
    numbers.clear();
    for x in 0..flags.len() {
        if flags[x] {
            numbers.push_reserved(x as u32);
        }
    }
}

/// The objects of a graph that are marked, in the order of their marks, of which the first ones were walked. Room for a mark
/// of each object is taken at the beginning.
#[derive(Drop)]
pub struct Marks {
    flags: Vec<bool>,
    marked: Vec<u32>,
    walked: u32,
}

impl Model for Marks {
    ghost use Rattle.std.specs.Prelude.{◌<◌, ◌^◌, length, vec_capacity};
    ghost use Rattle.lu_mark.specs.Marking.{Marking, IsMarking, AreFlags};

    ghost Value = { Marking };

    ghost view = { λ m. record { size = length m.flags.items; marked = m.marked.items; walked = m.walked } };

    ghost invariant = { λ m. IsMarking (record { size = length m.flags.items; marked = m.marked.items; walked = m.walked })
        × AreFlags m.flags.items m.marked.items (vec_capacity m.marked)
        × (length m.flags.items < 2 ^ 32) };
}

impl Marks {
    ghost use Rattle.lu_mark.specs.Marking.{Marking, in_order};

    /// Marks an object.
    fn mark(&mut self, object: u32)
        requires { object < self.old.size }
        ensures { self.new ≡ record self.old { marked = with_mark self.old.marked object } }
    {
        if !self.flags[object as usize] {
            self.marked.push_reserved(object);
            self.flags[object as usize] = true;
        }
    }

    /// Marks objects, in turn.
    fn mark_all(&mut self, objects: &[u32])
        requires { All (λ x. x < self.old.size) objects.now }
        ensures { self.new ≡ record self.old { marked = with_marks self.old.marked objects.now } }
    {
        for object in objects {
            self.mark(*object);
        }
    }

    /// A walk over so many objects, which begins at these.
    pub fn begin(alloc: Global, size: u32, roots: &[u32]) -> Result<Marks, Memory>
        requires { All (λ x. x < size) roots.now }
        ensures value { IfOk result (λ marks. marks ≡ begun size roots.now) }
        ensures walk { IfOk result (λ marks. (g : Graph)
            → g.size ≡ size → AreRoots g roots.now → IsWalk g marks) }
    {
        let mut marks = Marks {
            flags: clear_flags(alloc, size)?,
            marked: Vec::with_capacity(alloc, size as usize)?,
            walked: 0,
        };
        marks.mark_all(roots);
        Ok(marks)
    }

    /// How many objects there are, marked or not.
    pub fn size(&self) -> u32
        ensures { result ≡ self.now.size }
    {
        self.flags.len() as u32
    }

    /// The object that the next step walks; none where each marked object was walked.
    pub fn next(&self) -> Option<u32>
        ensures value { result ≡ next_in self.now }
        ensures inside { IfSome result (λ object. object < self.now.size) }
        ensures more { IsSome result ↔ (self.now.walked < length self.now.marked) }
    {
        self.marked.get(self.walked as usize).copied()
    }

    /// How many objects were walked.
    pub fn walked(&self) -> u32
        ensures count { result ≡ self.now.walked }
        ensures within { result ≤ length self.now.marked }
    {
        self.walked
    }

    /// The marked objects, in the order of their marks, or of their numbers once the walk is done.
    pub fn marked(&self) -> &[u32]
        ensures { result.now ≡ self.now.marked }
    {
        &self.marked
    }

    /// Puts the marked objects in order.
    fn order(&mut self)
        requires { self.old.walked ≡ length self.old.marked }
        ensures { self.new ≡ in_order self.old }
    {
        list_set(&self.flags, &mut self.marked);
    }

    /// Walks the next object, where `targets` may come next after it.
    pub fn step(&mut self, targets: &[u32]) -> WalkState
        requires more { self.old.walked < length self.old.marked }
        requires inside { All (λ x. x < self.old.size) targets.now }
        ensures value { self.new ≡ stepped self.old targets.now }
        ensures state { result ≡ state_of self.new }
        ensures more { (result ≡ WalkState.More) ↔ (self.new.walked < length self.new.marked) }
        ensures size { self.new.size ≡ self.old.size }

        // Over a graph, with exactly those that may come next.
        ensures goes_on { (g : Graph) (y : ℕ) → IsWalk g self.old
            → next_in self.old ≡ Some y → AreNext g y targets.now → GoesOn g self.new result }
    {
        self.mark_all(targets);
        self.walked += 1;
        if self.walked as usize == self.marked.len() {
            self.order();
            WalkState::Done
        } else {
            WalkState::More
        }
    }
}
