// The numbers of signatures and of function pointer types.

ghost use Rattle.std.specs.Prelude.{◌≡◌, position};
ghost use Rattle.c_check_expr.specs.Declarators as spec;

use c_check_scope::checked::Checked;
use c_check_scope::types::Types;
use c_types::{Signature, Ty, TyId};
use src_tree::signatures::{same_numbers, same_result};

/// Whether two signatures are equal.
pub fn same_signature(a: &Signature, b: &Signature) -> bool
    ensures { result ≡ spec.same_signature a.now b.now }
{
    same_result(a.result, b.result) && same_numbers(a.params.as_slice(), b.params.as_slice())
}

pub fn place_of(signatures: &[Signature], signature: &Signature) -> Option<usize>
    ensures { result ≡ position (spec.same_signature signature.now) signatures.now }
{
    signatures
        .iter()
        .position(|other| same_signature(signature, other))
}

/// The number of a signature; 0 where the table doesn't have it.
#[tactic(auto, unfolding(crate::specs::Declarators::signature_number))]
pub fn signature_number(types: &Types, signature: &Signature) -> u32
    ensures { result ≡ spec.signature_number types.now signature.now }
{
    match place_of(types.parts().signatures.as_slice(), signature) {
        None => 0,
        Some(number) => number as u32,
    }
}

/// The number of the type of pointers to functions of a signature.
#[tactic(auto, unfolding(crate::specs::Declarators::pointer_type))]
pub fn pointer_type(types: &Types, signature: Checked<Signature>) -> Checked<TyId>
    ensures { result ≡ spec.pointer_type types.now signature }
{
    match signature {
        Err(rules) => Err(rules),
        Ok(signature) => Ok(types.number_of(Ty::Function(signature_number(types, &signature)))),
    }
}
