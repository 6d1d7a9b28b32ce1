// What a scalar global may begin with.

ghost use Rattle.std.specs.Prelude.{◌≡◌, IfOk, is_some};
ghost use Rattle.src_meaning.specs.Constant as constant;
ghost use Rattle.src_meaning.specs.Initial.{initial_scope};
ghost use Rattle.c_check_decl.specs.Globals as spec;

use c_types::TypeTable;
use sqlite_items::Items;
use src_model::constant::evaluate;
use src_tree::expr::{ExprKind, PlaceKind, TypedExpr, TypedPlace};
use src_tree::program::Program;
use std::alloc::{AllocError, Global};

/// A program of these types alone, in which integer constants have their values.
pub fn types_alone(alloc: Global, table: &TypeTable) -> Result<Program, AllocError>
    ensures { IfOk result (λ types. types ≡ spec.types_alone table.now) }
{
    match table.copy(alloc) {
        Err(_) => Err(AllocError),
        Ok(types) => Ok(Program {
            names: Items::new(alloc),
            types,
            globals: Items::new(alloc),
            functions: Items::new(alloc),
            sites: Items::new(alloc),
        }),
    }
}

fn is_global(place: &TypedPlace) -> bool
    ensures { result ≡ constant.is_global place.now.kind }
{
    match &place.kind {
        PlaceKind::Global(_) => true,
        PlaceKind::Deref(_) | PlaceKind::Arrow(_) | PlaceKind::Item(_, _) => false,
        PlaceKind::Element(_, _) | PlaceKind::Field(_, _) | PlaceKind::Member(_, _) => false,
    }
}

#[tactic(auto, using(crate::proofs::Addresses::address_facts))]
fn is_address(e: &TypedExpr) -> bool
    ensures { result ≡ constant.is_address_constant e.now.kind }
{
    match &e.kind {
        ExprKind::Function(_) => true,
        ExprKind::AddressOf(place) => is_global(place.get()),
        ExprKind::Decay(place) => is_global(place.get()),
        ExprKind::Number(_) | ExprKind::SizeOf(_) | ExprKind::Local(_) => false,
        ExprKind::Load(_) | ExprKind::Cast(_) | ExprKind::Convert(_) => false,
        ExprKind::Unary(_, _) | ExprKind::Binary(_, _, _) => false,
        ExprKind::Logical(_, _, _) | ExprKind::Conditional(_, _, _) => false,
    }
}

fn has_value(types: &Program, e: &TypedExpr) -> bool
    ensures { result ≡ is_some (constant.if_ok (constant.constant_value (initial_scope types.now) e.now)) }
{
    match evaluate(types, e) {
        Some(_) => true,
        None => false,
    }
}

/// Whether it is `&` of a global, a global array as a pointer, a function's name, the literal 0 as a pointer, or an
/// expression of integers that doesn't trap.
#[tactic(auto, unfolding(crate::specs::Globals::is_start_value))]
pub fn is_start_value(types: &Program, e: &TypedExpr) -> bool
    ensures { result ≡ spec.is_start_value types.now e.now }
{
    is_address(e) || has_value(types, e)
}
