// Why a text or an expression is refused.

ghost use Rattle.std.specs.Prelude.{◌≡◌};

use std::alloc::AllocError;

/// Why a text or an expression is refused.
#[derive(Clone, Copy, Debug, PartialEq, Eq)]
pub enum CheckError {
    /// The declaration of this number, counted from 1, is the first that breaks a rule, and this is the least code of
    /// the rules that it breaks. Where `init` or `on_message` is missing, the number is that of the declarations plus
    /// 1. An expression is declaration 1.
    Rule { decl: usize, code: u32 },
    /// Memory is wanted.
    Memory,
}

impl From<AllocError> for CheckError {
    ghost use Rattle.c_check_scope.specs.declared.error.CheckError.TheVariants.{Memory};

    ghost from_gives = { λ _ e. e ≡ Memory };

    fn from(_: AllocError) -> CheckError {
        CheckError::Memory
    }
}
