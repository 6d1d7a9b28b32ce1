// One page.

ghost use Rattle.std.specs.Prelude.{◌≡◌, ◌+◌, ◌<◌, ◌≤◌, length, [], OnOk, OnErr, replicate};
ghost use Rattle.lu_spec.specs.Splice.{spliced};

use lu_base::Memory;
use std::alloc::Global;

/// The bytes of a page.
pub const PAGE_BYTES: usize = 4096;

/// Puts a piece in place of as many bytes.
pub fn overwrite(bytes: &mut [u8], start: usize, piece: &[u8])
    requires { start + length piece.now ≤ length bytes.old }
    ensures { bytes.new ≡ spliced bytes.old start piece.now }
{
    bytes[start..start + piece.len()].copy_from_slice(piece);
}

/// A page: 4,096 bytes, or none where no memory is taken for it.
#[derive(Drop)]
pub struct Page {
    pub bytes: Vec<u8>,
}

impl Page {
    /// A page without memory.
    pub fn absent(alloc: Global) -> Self
        ensures { result.bytes.items ≡ [] }
    {
        Page {
            bytes: Vec::new(alloc),
        }
    }

    /// Takes memory for the page if it has none: zeros.
    pub fn take(&mut self) -> Result<(), Memory>
        ensures kept { 0 < length self.old.bytes.items → self.new.bytes.items ≡ self.old.bytes.items }
        ensures ok { OnOk result (length self.old.bytes.items ≡ 0 → self.new.bytes.items ≡ replicate 4096 0) }
        ensures err { OnErr result (self.new.bytes.items ≡ self.old.bytes.items) }
    {
        if self.bytes.is_empty() {
            let alloc = *self.bytes.allocator();
            self.bytes = vec![in alloc; 0; PAGE_BYTES]?;
        }
        Ok(())
    }

    /// Gives the page's memory up.
    pub fn give_up(&mut self)
        ensures { self.new.bytes.items ≡ [] }
    {
        let alloc = *self.bytes.allocator();
        self.bytes = Vec::new(alloc);
    }

    /// Puts a piece in place of as many bytes.
    pub fn write(&mut self, start: usize, piece: &[u8])
        requires { start + length piece.now ≤ length self.old.bytes.items }
        ensures { self.new.bytes.items ≡ spliced self.old.bytes.items start piece.now }
    {
        overwrite(&mut self.bytes, start, piece);
    }

    /// Makes so many bytes zero.
    pub fn clear(&mut self, start: usize, count: usize)
        requires { start + count ≤ length self.old.bytes.items }
        ensures { self.new.bytes.items ≡ spliced self.old.bytes.items start (replicate count 0) }
    {
        self.bytes[start..start + count].fill(0);
    }
}
