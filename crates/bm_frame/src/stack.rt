// Operand stacks of bounded height.

ghost use Rattle.std.specs.Prelude.{◌≡◌, ◌+◌, ◌≤◌, [], ◌∷◌, length, drop, MatchOption, IfOk, Some, slice_get};
ghost use Rattle.lu_base.specs.declared.limits.TheConstants.{STACK_HEIGHT};
ghost use Rattle.bm_code.specs.Transfers.{pop_words};

use lu_base::Memory;
use lu_base::limits::STACK_HEIGHT;
use std::alloc::Global;
use std::marker::Model;

/// How many words an operand stack has room for: the greatest height of a function, and a result that is given back.
const STACK_ROOM: usize = STACK_HEIGHT as usize + 1;

/// An operand stack, which contracts see as its words with the top first. Its room is made at once.
#[derive(Drop)]
pub struct Stack {
    words: Vec<u64>,
}

impl Model for Stack {
    ghost use Rattle.std.specs.Prelude.{◌≡◌, ◌+◌, List, ℕ, reverse, vec_capacity, ◌≤◌, length};
    ghost use Rattle.lu_base.specs.declared.limits.TheConstants.{STACK_HEIGHT};

    ghost Value = { List ℕ };

    ghost view = { λ s. reverse s.words.items };

    ghost invariant = { λ s. (vec_capacity s.words ≡ STACK_HEIGHT + 1) × (length s.words.items ≤ STACK_HEIGHT + 1) };
}

impl Stack {
    pub fn new(alloc: Global) -> Result<Stack, Memory>
        ensures { IfOk result (λ stack. stack ≡ []) }
    {
        Ok(Stack {
            words: Vec::with_capacity(alloc, STACK_ROOM)?,
        })
    }

    #[inline]
    pub fn len(&self) -> usize
        ensures count { result ≡ length self.now }
        ensures bound { result ≤ STACK_HEIGHT + 1 }
    {
        self.words.len()
    }

    /// The topmost word.
    #[inline]
    pub fn top(&self) -> Option<u64>
        ensures { result ≡ slice_get self.now 0 }
    {
        self.words.last().copied()
    }

    /// The word under so many others.
    pub fn under(&self, count: usize) -> Option<u64>
        ensures { result ≡ slice_get self.now count }
    {
        let above = self.words.len().checked_sub(count)?;
        let index = above.checked_sub(1)?;
        Some(self.words[index])
    }

    #[inline]
    pub fn pop(&mut self) -> Option<u64>
        ensures words { MatchOption result ((self.old ≡ []) × (self.new ≡ [])) (λ top. self.old ≡ top ∷ self.new) }
        ensures room { MatchOption result (Unit {0}) (λ top. length self.new ≤ STACK_HEIGHT) }
    {
        self.words.pop()
    }

    #[inline]
    pub fn push(&mut self, word: u64)
        requires { length self.old ≤ STACK_HEIGHT }
        ensures { self.new ≡ word ∷ self.old }
    {
        self.words.push_reserved(word);
    }

    pub fn clear(&mut self)
        ensures { self.new ≡ [] }
    {
        self.words.clear();
    }

    /// The topmost words, the topmost last.
    pub fn last(&self, count: usize) -> &[u64]
        requires { count ≤ length self.now }
        ensures words { pop_words count self.now [] ≡ Some (result.now, drop count self.now) }
        ensures count { length result.now ≡ count }
    {
        let start = self.words.len() - count;
        &self.words[start..]
    }

    /// Takes the topmost words off.
    pub fn cut(&mut self, count: usize)
        requires { count ≤ length self.old }
        ensures { self.new ≡ drop count self.old }
    {
        let left = self.words.len() - count;
        self.words.truncate(left);
    }
}
