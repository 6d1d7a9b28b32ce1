// What fields and globals hold.

ghost use Rattle.std.specs.Prelude.{◌≡◌, IfOk, OnOk};
ghost use Rattle.c_ast.specs.Trees.{object as object_tree};
ghost use Rattle.c_check_decl.specs.Records as decl_records;
ghost use Rattle.c_check_table.specs.Drafts as drafts;
ghost use Rattle.c_check_table.specs.Records as spec;

use crate::draft::Draft;
use crate::signatures::add_heading;
use c_ast::decl::Named;
use c_check_decl::objects::{object_size, small};
use c_check_expr::objects::{ObjectType, with_length};
use c_check_expr::typing::named;
use c_check_scope::checked::Checked;
use c_check_scope::numbers::as_number;
use c_check_scope::scope::Scope;
use c_types::{Shape, Ty, TyId};
use std::alloc::{AllocError, Global};

/// Adds the signatures in the type of a field or global, and gives this type.
#[tactic(auto, unfolding(crate::specs::Records::object_in))]
fn add_object(
    draft: &mut Draft,
    alloc: Global,
    scope: &Scope,
    object: &Named,
) -> Result<Checked<ObjectType>, AllocError>
    ensures draft { OnOk result (draft.new ≡ (spec.object_in scope.now draft.old (object_tree object.now)).0) }
    ensures ty { IfOk result (λ ty. ty ≡ (spec.object_in scope.now draft.old (object_tree object.now)).1) }
{
    match object {
        Named::Object(name, _, length) => Ok(with_length(named(scope, name), *length)),
        Named::Function(answer, _, length, params) => {
            let ty = add_heading(draft, alloc, scope, answer, params.as_slice())?;
            Ok(with_length(ty, *length))
        }
    }
}

fn shape_of_array(draft: &Draft, ty: ObjectType) -> Result<Shape, AllocError>
    ensures size { IfOk result (λ s. s.size ≡ decl_records.object_size (drafts.shapes draft.now) ty) }
    ensures align { IfOk result (λ s. s.align ≡ (drafts.shapes draft.now ty.element).align) }
{
    let size = as_number(object_size(draft, ty) as usize)?;
    let align = draft.shape_of(ty.element).align;
    Ok(Shape { size, align })
}

/// Adds the type of a field or global, if it is an array, and gives its number.
#[tactic(auto, unfolding(crate::specs::Records::with_array, crate::specs::Records::object_place))]
pub fn add_array(draft: &mut Draft, ty: ObjectType) -> Result<TyId, AllocError>
    ensures draft { OnOk result (draft.new ≡ spec.with_array draft.old ty) }
    ensures number { IfOk result (λ number. number ≡ spec.object_place draft.old ty) }
{
    match ty.count {
        None => Ok(ty.element),
        Some(count) => {
            let shape = shape_of_array(draft, ty)?;
            draft.add(Ty::Array(ty.element, count), shape)
        }
    }
}

#[tactic(auto, unfolding(crate::specs::Records::array_in))]
fn add_judged(draft: &mut Draft, ty: Checked<ObjectType>) -> Result<Checked<TyId>, AllocError>
    ensures draft { OnOk result (draft.new ≡ (spec.array_in draft.old ty).0) }
    ensures number { IfOk result (λ number. number ≡ (spec.array_in draft.old ty).1) }
{
    match ty {
        Err(rules) => Ok(Err(rules)),
        Ok(ty) => Ok(Ok(add_array(draft, ty)?)),
    }
}

/// Adds the types in that of a field or global, and gives its number.
#[tactic(auto, unfolding(crate::specs::Records::type_in))]
pub fn add_type(
    draft: &mut Draft,
    alloc: Global,
    scope: &Scope,
    object: &Named,
) -> Result<Checked<TyId>, AllocError>
    ensures draft { OnOk result (draft.new ≡ (spec.type_in scope.now draft.old (object_tree object.now)).0) }
    ensures number { IfOk result (λ number. number ≡ (spec.type_in scope.now draft.old (object_tree object.now)).1) }
{
    let ty = add_object(draft, alloc, scope, object)?;
    let ty = small(draft, ty);
    add_judged(draft, ty)
}
