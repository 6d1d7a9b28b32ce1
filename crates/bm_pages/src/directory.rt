// The directory: for each page number the page.

ghost use Rattle.std.specs.Prelude.{◌≡◌, ◌≢◌, ◌+◌, ◌<◌, ◌≤◌, ◌^◌, ℕ, length, [], OnOk, OnErr, IsTrue, ◌↔◌, replicate};
ghost use Rattle.lu_spec.specs.Splice.{spliced};
ghost use Rattle.bm_pages.specs.Pages.{IsThere};
ghost use Rattle.bm_pages.specs.Directory.{pages_in, part_pages, ChangesPage, IsTaken};

use crate::page::Page;
use lu_base::Memory;
use std::alloc::Global;

/// The entries of the directory, and of each part of it.
pub const ENTRIES: usize = 1024;

/// The second level: pages with consecutive numbers, or none where no memory is taken for them.
#[derive(Drop)]
pub struct Part {
    pub pages: Vec<Page>,
}

impl Part {
    /// Takes memory for the entries that the part lacks.
    fn complete(&mut self) -> Result<(), Memory>
        ensures same { (k : ℕ) → part_pages self.new k ≡ part_pages self.old k }
        ensures ok { OnOk result (1024 ≤ length self.new.pages.items) }
    {
        let alloc = *self.pages.allocator();
        for _ in self.pages.len()..ENTRIES {
            self.pages.push(Page::absent(alloc))?;
        }
        Ok(())
    }

    /// Whether a page of the part has memory.
    fn has_page(&self, index: usize) -> bool
        ensures { IsTrue result ↔ (0 < length (part_pages self.now index)) }
    {
        index < self.pages.len() && !self.pages[index].bytes.is_empty()
    }

    /// Takes memory for a page of the part if it has none.
    fn take(&mut self, index: usize) -> Result<(), Memory>
        requires { index < 1024 }
        ensures ok { OnOk result (IsTaken (part_pages self.old) (part_pages self.new) index (index + 1)) }
        ensures err { OnErr result ((k : ℕ) → part_pages self.new k ≡ part_pages self.old k) }
    {
        self.complete()?;
        self.pages[index].take()
    }
}

/// The first level: parts in the order of their pages' numbers.
#[derive(Drop)]
pub struct Directory {
    pub parts: Vec<Part>,
}

impl Directory {
    /// A directory without memory.
    pub fn fresh(alloc: Global) -> Self
        ensures { result.parts.items ≡ [] }
    {
        Directory {
            parts: Vec::new(alloc),
        }
    }

    /// Takes memory for the entries that the directory lacks.
    fn complete(&mut self) -> Result<(), Memory>
        ensures same { (page : ℕ) → pages_in self.new page ≡ pages_in self.old page }
        ensures ok { OnOk result (1024 ≤ length self.new.parts.items) }
    {
        let alloc = *self.parts.allocator();
        for _ in self.parts.len()..ENTRIES {
            let pages = Vec::new(alloc);
            self.parts.push(Part { pages })?;
        }
        Ok(())
    }

    /// The bytes of a page.
    pub fn page(&self, number: usize) -> &[u8]
        requires { IsThere (pages_in self.now) number }
        ensures { result.now ≡ pages_in self.now number }
    {
        &self.parts[number / ENTRIES].pages[number % ENTRIES].bytes
    }

    /// Puts a piece in place of as many bytes of a page.
    pub fn write(&mut self, number: usize, start: usize, piece: &[u8])
        requires there { IsThere (pages_in self.old) number }
        requires fits { start + length piece.now ≤ 4096 }
        ensures { ChangesPage (pages_in self.old) (pages_in self.new) number (spliced (pages_in self.old number) start piece.now) }
    {
        let part = &mut self.parts[number / ENTRIES];
        part.pages[number % ENTRIES].write(start, piece);
    }

    /// Whether a page has memory.
    pub fn has_page(&self, number: usize) -> bool
        ensures { IsTrue result ↔ (0 < length (pages_in self.now number)) }
    {
        number / ENTRIES < self.parts.len()
            && self.parts[number / ENTRIES].has_page(number % ENTRIES)
    }

    /// Makes so many bytes of a page zero.
    pub fn clear(&mut self, number: usize, start: usize, count: usize)
        requires there { IsThere (pages_in self.old) number }
        requires fits { start + count ≤ 4096 }
        ensures { ChangesPage (pages_in self.old) (pages_in self.new) number (spliced (pages_in self.old number) start (replicate count 0)) }
    {
        let part = &mut self.parts[number / ENTRIES];
        part.pages[number % ENTRIES].clear(start, count);
    }

    /// Gives a page's memory up.
    pub fn give_up(&mut self, number: usize)
        requires { 0 < length (pages_in self.old number) }
        ensures { ChangesPage (pages_in self.old) (pages_in self.new) number [] }
    {
        let part = &mut self.parts[number / ENTRIES];
        part.pages[number % ENTRIES].give_up();
    }

    /// Takes memory for a page if it has none.
    pub fn take(&mut self, number: usize) -> Result<(), Memory>
        requires { number < 2 ^ 20 }
        ensures ok { OnOk result (IsTaken (pages_in self.old) (pages_in self.new) number (number + 1)) }
        ensures err { OnErr result ((page : ℕ) → pages_in self.new page ≡ pages_in self.old page) }
    {
        self.complete()?;
        let part = &mut self.parts[number / ENTRIES];
        part.take(number % ENTRIES)
    }
}
