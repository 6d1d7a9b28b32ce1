// What an expression denotes.

ghost use Rattle.std.specs.Prelude.{◌≡◌};
ghost use Rattle.c_check_expr.specs.Denoted.{is_null};

use c_check_scope::checked::Checked;
use c_check_scope::scope::BuiltIn;
use c_types::TyId;
use sqlite_items::Boxed;
use src_tree::expr::{TypedExpr, TypedPlace};

/// What an expression denotes.
#[derive(Drop)]
pub enum Denoted {
    /// The literal 0: an int, and the null pointer of any pointer type.
    Null,
    /// A parameter or local, with its number and the number of its type.
    Local(u32, TyId),
    /// A function's name, with the number of the function and of its signature.
    Function(u32, u32),
    BuiltIn(BuiltIn),
    /// A place, and whether it lies inside a union.
    Place(Boxed<TypedPlace>, bool),
    /// Any other value.
    Value(Boxed<TypedExpr>),
}

/// Whether it is the literal 0.
#[tactic(auto, unfolding(crate::specs::Denoted::is_null))]
pub fn is_null(denoted: &Checked<Denoted>) -> bool
    ensures { result ≡ is_null denoted.now }
{
    match denoted {
        Ok(Denoted::Null) => true,
        _ => false,
    }
}
