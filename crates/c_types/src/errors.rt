ghost use Rattle.std.specs.Prelude.{◌≡◌};
ghost use Rattle.c_types.specs.declared.errors.BuildError.TheVariants as BuildError;

use std::alloc::AllocError;

/// Why no table is built, each with the least number that it applies to.
#[derive(Clone, Copy, Debug, PartialEq, Eq)]
pub enum BuildError {
    /// Two equal types or signatures, two equal tags, or a field name twice. The number counts types,
    /// structs, unions and signatures as one list from 0.
    Duplicate(u64),
    /// A struct or union with no field, counted in the same way.
    Empty(u64),
    /// A type that holds itself by value, or a pointer that leads to itself through pointers and
    /// arrays alone.
    Cycle(u32),
    /// A type whose size is above 1,048,576, or an array whose length is outside 1..1,048,576.
    TooBig(u32),
    Memory,
}

impl From<AllocError> for BuildError {
    ghost from_gives = { λ _ e. e ≡ BuildError.Memory };

    fn from(_: AllocError) -> BuildError {
        BuildError::Memory
    }
}
