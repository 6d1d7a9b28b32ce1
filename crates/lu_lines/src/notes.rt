//! Lists of notes.

ghost use Rattle.std.specs.Prelude.{◌≡◌, ◌≤◌, ◌<◌, ◌+◌, [], ◌∷◌, ◌++◌, OnOk, OnErr};

use crate::Note;
use lu_base::Memory;
use std::alloc::Global;
use std::marker::Model;

/// Notes in order. Clauses see the list, and beside it how many more notes have room.
#[derive(Debug, Drop)]
pub struct Notes {
    notes: Vec<Note>,
}

impl Model for Notes {
    ghost use Rattle.std.specs.Prelude.{◌-◌, vec_len, vec_capacity};
    ghost use Rattle.lu_lines.specs.Notes.{NotesValue};

    ghost Value = { NotesValue };

    ghost view = { λ n. record { list = n.notes.items; spare = vec_capacity n.notes - vec_len n.notes } };
}

impl Notes {
    /// No notes, and no room. It takes no memory.
    pub fn fresh(alloc: Global) -> Self
        ensures { result.list ≡ [] }
    {
        Notes {
            notes: Vec::new(alloc),
        }
    }

    /// Makes room for `count` more notes, if there isn't so much.
    pub fn reserve(&mut self, count: usize) -> Result<(), Memory>
        ensures room { OnOk result (count ≤ self.new.spare) }
        ensures kept { self.new.list ≡ self.old.list }
    {
        self.notes.reserve(count)?;
        Ok(())
    }

    /// Puts the note behind the others, where there is room. It takes no memory.
    pub fn push(&mut self, note: Note)
        requires { 0 < self.old.spare }
        ensures list { self.new.list ≡ self.old.list ++ note ∷ [] }
        ensures room { self.old.spare ≤ self.new.spare + 1 }
    {
        let pushed = self.notes.push(note);
        prove!(pushed.is_ok());
    }

    /// The notes in order. It takes no memory.
    pub fn list(&self) -> &[Note]
        ensures { result.now ≡ self.now.list }
    {
        self.notes.as_slice()
    }
}
