// Why a program has no code.

use lu_base::Memory;

/// Why a program was not compiled.
#[derive(Clone, Copy, Debug, PartialEq, Eq)]
pub enum CompileError {
    /// The function of this number is the first whose weight passes the greatest.
    TooLong { function: u32 },
    /// Memory is wanted. No function is too long.
    Memory,
}

impl From<Memory> for CompileError {
    ghost use Rattle.std.specs.Prelude.{◌≡◌};
    ghost use Rattle.cg_program.specs.declared.error.CompileError.TheVariants.{Memory as WantsMemory};

    ghost from_gives = { λ _ e. e ≡ WantsMemory };

    fn from(_: Memory) -> Self {
        CompileError::Memory
    }
}
