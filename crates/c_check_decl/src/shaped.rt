// What tells the sizes and alignments of types.

ghost use Rattle.std.specs.Prelude.{◌≡◌};
ghost use Rattle.c_types.specs.Layout.{Shapes, shape_of};

use c_types::{TyId, TypeTable};

/// What tells the size and the alignment of each type, by its number.
pub trait Shaped {
    ghost shapes: { Self → Shapes };

    /// The bytes of a type.
    fn bytes_of(&self, number: TyId) -> u32
        ensures { result ≡ (shapes self.now number).size };

    /// The alignment of a type in bytes.
    fn alignment_of(&self, number: TyId) -> u32
        ensures { result ≡ (shapes self.now number).align };
}

impl Shaped for TypeTable {
    ghost shapes = { shape_of };

    fn bytes_of(&self, number: TyId) -> u32 {
        self.size_of(number)
    }

    fn alignment_of(&self, number: TyId) -> u32 {
        self.align_of(number)
    }
}
