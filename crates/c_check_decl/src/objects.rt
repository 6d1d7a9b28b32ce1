// The sizes of fields and globals.

ghost use Rattle.std.specs.Prelude.{◌≡◌, IfOk};
ghost use Rattle.c_ast.specs.Trees.{object};
ghost use Rattle.c_check_decl.specs.Records as spec;

use crate::shaped::Shaped;
use c_ast::decl::Named;
use c_check_expr::objects::{ObjectType, object_type};
use c_check_scope::checked::Checked;
use c_check_scope::rule::Rule;
use c_check_scope::rules::Rules;
use c_check_scope::scope::Scope;
use c_types::{GREATEST, TypeTable};
use std::alloc::{AllocError, Global};

/// The bytes of a field or global.
#[tactic(auto, unfolding(crate::specs::Records::object_size))]
pub fn object_size<S: Shaped>(shapes: &S, ty: ObjectType) -> u64
    ensures { result ≡ spec.object_size (S.shapes shapes.now) ty }
{
    let size = shapes.bytes_of(ty.element) as u64;
    match ty.count {
        None => size,
        Some(count) => size * count as u64,
    }
}

/// The type of a field or global, where it has at most 1,048,576 bytes.
#[tactic(auto, unfolding(crate::specs::Records::small))]
pub fn small<S: Shaped>(shapes: &S, ty: Checked<ObjectType>) -> Checked<ObjectType>
    ensures { result ≡ spec.small (S.shapes shapes.now) ty }
{
    match ty {
        Err(rules) => Err(rules),
        Ok(ty) => {
            if (GREATEST as u64) < object_size(shapes, ty) {
                Err(Rules::only(Rule::Size))
            } else {
                Ok(ty)
            }
        }
    }
}

/// The type of a field or global, which has at most 1,048,576 bytes.
#[tactic(auto, unfolding(crate::specs::Records::small_type))]
pub fn small_type(
    alloc: Global,
    scope: &Scope,
    table: &TypeTable,
    named: &Named,
) -> Result<Checked<ObjectType>, AllocError>
    requires { table.now ≡ scope.now.types }
    ensures { IfOk result (λ ty. ty ≡ spec.small_type scope.now (object named.now)) }
{
    Ok(small(table, object_type(alloc, scope, named)?))
}
