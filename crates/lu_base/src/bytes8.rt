ghost use Rattle.std.specs.Prelude.{◌≡◌, IfOk};

use crate::Memory;
use std::alloc::Global;
use std::marker::Model;

/// A list of bytes.
#[derive(Debug, Drop)]
pub struct Bytes8 {
    bytes: Vec<u8>,
}

impl Model for Bytes8 {
    ghost use Rattle.std.specs.Prelude.{List, ℕ};

    ghost Value = { List ℕ };

    ghost view = { λ b. b.bytes.items };
}

impl Bytes8 {
    /// It takes no memory.
    pub fn new(bytes: Vec<u8>) -> Self
        ensures { result ≡ bytes.items }
    {
        Bytes8 { bytes }
    }

    pub fn as_slice(&self) -> &[u8]
        ensures { result.now ≡ self.now }
    {
        self.bytes.as_slice()
    }

    /// It takes no memory.
    pub fn into_vec(self) -> Vec<u8>
        ensures { result.items ≡ self }
    {
        self.bytes
    }

    /// Equal bytes.
    pub fn copy(&self, alloc: Global) -> Result<Bytes8, Memory>
        ensures { IfOk result (λ copied. copied ≡ self.now) }
    {
        Ok(Bytes8::new(self.bytes.to_vec(alloc)?))
    }
}

impl PartialEq for Bytes8 {
    ghost use Rattle.std.specs.Str.{bytes_eq};
    ghost use Rattle.std.proofs.Common.{rules};
    ghost use Rattle.std.specs.Cmp.Rules.{comparing};

    ghost eq = { bytes_eq };

    ghost laws = { Prim.search (comparing, rules) };

    fn eq(&self, other: &Bytes8) -> bool {
        self.bytes.as_slice() == other.bytes.as_slice()
    }
}

impl Eq for Bytes8 {
    ghost use Rattle.std.proofs.Common.{rules};
    ghost use Rattle.std.specs.Cmp.Rules.{comparing};

    ghost laws = { Prim.search (comparing, rules) };
}
