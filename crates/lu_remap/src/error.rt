ghost use Rattle.std.specs.Prelude.{◌≡◌};
ghost use Rattle.lu_remap.specs.declared.error.MapError.TheVariants as MapError;

use lu_base::Memory;

/// Why there is no map.
#[derive(Clone, Copy, Debug, PartialEq, Eq)]
pub enum MapError {
    /// At this old object the new heap objects, added in order, take more than the heap has.
    HeapLimit { object: u32 },
    /// An allocation was refused.
    Memory,
}

impl From<Memory> for MapError {
    ghost from_gives = { λ _ e. e ≡ MapError.Memory };

    fn from(_: Memory) -> Self {
        MapError::Memory
    }
}
