// Memory as a trait.

ghost use Rattle.std.specs.Prelude.{◌≡◌, ℕ, ◌+◌, ◌%◌, ◌<◌, ◌^◌, List, length, replicate, IsSome, OnOk, OnErr};
ghost use Rattle.std.specs.Ordering.{nat_cmp};
ghost use Rattle.std.specs.FinMap as map;
ghost use Rattle.bm_mem.specs.Content.{IsClear, IsInside, IsRead, IsWidth, IsWritten};

use lu_base::Memory;
use std::alloc::Global;

/// Memory of objects that share no byte. Clauses see a finite map from the address of each object to its bytes.
pub trait Bytes: Drop {
    ghost content: { Self → map.FinMap nat_cmp (List ℕ) };

    /// Memory without objects.
    fn fresh(alloc: Global) -> Self
        ensures { content result ≡ map.empty };

    /// Makes an object of `size` zero bytes at an address.
    fn map(&mut self, addr: u32, size: u32) -> Result<(), Memory>
        requires some { 0 < size }
        requires end { addr + size < 2 ^ 32 }
        requires clear { IsClear (content self.old) addr size }
        ensures ok { OnOk result (content self.new ≡ map.insert (content self.old) addr (replicate size 0)) }
        ensures err { OnErr result (content self.new ≡ content self.old) };

    /// Takes the object that begins at an address away.
    fn unmap(&mut self, addr: u32)
        requires { IsSome (map.get (content self.old) addr) }
        ensures { content self.new ≡ map.remove (content self.old) addr };

    /// The bytes of an aligned range of 1, 2, 4 or 8 bytes.
    fn read(&self, addr: u32, len: u32) -> &[u8]
        requires width { IsWidth len }
        requires aligned { addr % len ≡ 0 }
        requires inside { IsInside (content self.now) addr len }
        ensures { IsRead (content self.now) addr len result.now };

    /// Copies the bytes from an address on, as many as `into` has.
    fn copy_out(&self, addr: u32, into: &mut [u8])
        requires { IsInside (content self.now) addr (length into.old) }
        ensures { IsRead (content self.now) addr (length into.old) into.new };

    /// Puts a piece in place of the bytes from an address on.
    fn write(&mut self, addr: u32, piece: &[u8])
        requires { IsInside (content self.old) addr (length piece.now) }
        ensures { IsWritten (content self.old) (content self.new) addr piece.now };
}
