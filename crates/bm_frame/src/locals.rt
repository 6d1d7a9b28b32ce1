// Locals of a function.

ghost use Rattle.std.specs.Prelude.{◌≡◌, ◌<◌, ◌≤◌, ◌-◌, ◌++◌, [], length, replicate, IfOk, slice_get, slice_set, IsTrue, MatchBool};
ghost use Rattle.lu_base.specs.declared.limits.TheConstants.{LOCALS};

use lu_base::Memory;
use lu_base::limits::LOCALS;
use std::alloc::Global;
use std::marker::Model;

/// The locals of a function, which contracts see as the list of their words. Their room is made at once.
#[derive(Drop)]
pub struct Locals {
    words: Vec<u64>,
}

impl Model for Locals {
    ghost use Rattle.std.specs.Prelude.{◌≤◌, List, ℕ, vec_capacity, length};
    ghost use Rattle.lu_base.specs.declared.limits.TheConstants.{LOCALS};

    ghost Value = { List ℕ };

    ghost view = { λ s. s.words.items };

    ghost invariant = { λ s. (LOCALS ≤ vec_capacity s.words) × (length s.words.items ≤ LOCALS) };
}

impl Locals {
    pub fn new(alloc: Global) -> Result<Locals, Memory>
        ensures { IfOk result (λ locals. locals ≡ []) }
    {
        Ok(Locals {
            words: Vec::with_capacity(alloc, LOCALS)?,
        })
    }

    /// The word of a local, if there is one of that number.
    #[inline]
    pub fn get(&self, local: u32) -> Option<u64>
        ensures { result ≡ slice_get self.now local }
    {
        self.words.get(local as usize).copied()
    }

    /// Sets a local; whether there is one of that number.
    #[inline]
    pub fn set(&mut self, local: u32, word: u64) -> bool
        ensures { MatchBool result ((local < length self.old) × (self.new ≡ slice_set self.old local word)) (length self.old ≤ local) }
    {
        if (local as usize) < self.words.len() {
            self.words[local as usize] = word;
            true
        } else {
            false
        }
    }

    /// These words, and then zeros up to a count.
    pub fn fill(&mut self, words: &[u64], count: u32)
        requires words { length words.now ≤ LOCALS }
        requires count { count ≤ LOCALS }
        ensures { self.new ≡ words.now ++ replicate (count - length words.now) 0 }
    {
        self.words.clear();
        if self.words.extend_from_slice(words).is_err() {
            unreachable!();
        }
        let total = words.len().max(count as usize);
        if self.words.resize(total, 0).is_err() {
            unreachable!();
        }
    }

    pub fn words(&self) -> &[u64]
        ensures value { result.now ≡ self.now }
        ensures bound { length self.now ≤ LOCALS }
    {
        self.words.as_slice()
    }
}
