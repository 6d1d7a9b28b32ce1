// The parts of signatures.

ghost use Rattle.std.specs.Prelude.{◌≡◌};
ghost use Rattle.src_tree.specs.Signatures as spec;

use crate::program::Function;
use c_types::{Signature, TyId};

/// Whether two lists of parameters have the same types.
pub fn same_numbers(a: &[TyId], b: &[TyId]) -> bool
    ensures { result ≡ spec.same_numbers a.now b.now }
{
    match (a.split_first(), b.split_first()) {
        (None, None) => true,
        (Some((x, xs)), Some((y, ys))) => *x == *y && same_numbers(xs, ys),
        _ => false,
    }
}

/// Whether two results have the same type, or are both `void`.
pub fn same_result(a: Option<TyId>, b: Option<TyId>) -> bool
    ensures { result ≡ spec.same_result a b }
{
    match (a, b) {
        (None, None) => true,
        (Some(a), Some(b)) => a == b,
        _ => false,
    }
}

/// Whether the function has exactly that signature.
pub fn has_signature(function: &Function, signature: &Signature) -> bool
    ensures { result ≡ spec.has_signature function.now signature.now }
{
    same_result(function.ret, signature.result)
        && same_numbers(function.params.as_slice(), signature.params.as_slice())
}
