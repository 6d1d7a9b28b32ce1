// Expressions and places as the rules type them.

ghost use Rattle.std.specs.Prelude.{◌≡◌, ◌&&◌, false, nat_eq, length, slice_get};
ghost use Rattle.std.specs.Option.{option_map_or};
ghost use Rattle.src_meaning.specs.Store as store;
ghost use Rattle.src_meaning.specs.ValidTypes.{ty};
ghost use Rattle.src_meaning.specs.Constant.{is_zero_literal};
ghost use Rattle.src_meaning.specs.ValidExpression as spec;
ghost use Rattle.src_model.specs.ValidSeen.{seen};

use crate::constant::is_zero_literal;
use crate::valid_fits::{
    address_fits, binary_fits, cast_fits, conditional_fits, decay_fits, element_fits, is_number,
    item_fits, load_fits, logical_fits, type_of, unary_fits,
};
use crate::valid_types::{
    converts, is_array, is_field_of, is_member_of, is_named, is_pointer, is_scalar,
    is_unsigned_int, points_to,
};
use c_types::{Ty, TyId};
use src_tree::expr::{ExprKind, PlaceKind, TypedExpr, TypedPlace};
use src_tree::program::Program;
use src_tree::signatures::has_signature;

/// What an expression may name: of a function the types of its parameters and of its locals.
#[derive(Clone, Copy)]
pub struct Declarations<'a> {
    pub program: &'a Program,
    pub params: &'a [TyId],
    pub locals: &'a [TyId],
}

/// The type of a parameter or a local; none where there is no such one.
pub fn local_type(at: &Declarations, number: u32) -> Option<TyId>
    ensures { result ≡ spec.local_type (seen at.now) number }
{
    match at.params.get(number as usize) {
        Some(ty) => Some(*ty),
        None => match at.locals.get(number as usize - at.params.len()) {
            Some(ty) => Some(*ty),
            None => None,
        },
    }
}

fn is_local(at: &Declarations, number: u32, ty: TyId) -> bool
    ensures { result ≡ option_map_or (nat_eq ty) (spec.local_type (seen at.now) number) false }
{
    match local_type(at, number) {
        Some(known) => ty == known,
        None => false,
    }
}

fn is_function(p: &Program, signature: u32, function: u32) -> bool
    ensures { result ≡ store.is_function p.now signature function }
{
    match p.functions.as_slice().get(function as usize) {
        None => false,
        Some(function) => match p
            .types
            .parts()
            .signatures
            .as_slice()
            .get(signature as usize)
        {
            None => false,
            Some(signature) => has_signature(function, signature),
        },
    }
}

fn is_function_name(p: &Program, ty: Option<Ty>, function: u32) -> bool
    ensures { result ≡ spec.is_function_name p.now ty function }
{
    match ty {
        Some(Ty::Function(signature)) => is_function(p, signature, function),
        _ => false,
    }
}

fn is_global(p: &Program, number: u32, ty: TyId) -> bool
    ensures { result ≡ option_map_or (λ d. nat_eq d.ty ty) (slice_get p.now.globals number) false }
{
    match p.globals.as_slice().get(number as usize) {
        None => false,
        Some(global) => global.ty == ty,
    }
}

fn converts_to(p: &Program, to: TyId, e: &TypedExpr) -> bool
    ensures { result ≡ spec.convert_fits p.now.types to e.now.ty (is_zero_literal p.now.types e.now.ty e.now.kind) }
{
    converts(type_of(p, e.ty), type_of(p, to))
        || is_pointer(type_of(p, to)) && is_zero_literal(p, e)
}

/// Whether the place isn't inside a union.
#[tactic(auto, using(src_meaning::proofs::ValidTrees::outside_facts))]
pub fn is_outside(place: &TypedPlace) -> bool
    ensures { result ≡ spec.is_outside place.now.kind }
{
    match &place.kind {
        PlaceKind::Element(array, _) => is_outside(array.get()),
        PlaceKind::Field(whole, _) => is_outside(whole.get()),
        PlaceKind::Member(_, _) => false,
        PlaceKind::Global(_) => true,
        PlaceKind::Deref(_) | PlaceKind::Arrow(_) | PlaceKind::Item(_, _) => true,
    }
}

/// Whether the expression has the type of its node.
#[cycle(is_expr)]
#[tactic(auto, using(src_meaning::proofs::ValidTrees::expression_facts))]
pub fn is_expr(at: &Declarations, e: &TypedExpr) -> bool
    ensures { result ≡ spec.is_expr (seen at.now) e.now.ty e.now.kind }
{
    let p = at.program;
    match &e.kind {
        ExprKind::Number(z) => is_number(type_of(p, e.ty), *z),
        ExprKind::SizeOf(ty) => is_unsigned_int(type_of(p, e.ty)) && is_named(p.types.parts(), *ty),
        ExprKind::Local(number) => is_local(at, *number, e.ty),
        ExprKind::Function(number) => is_function_name(p, type_of(p, e.ty), *number),
        ExprKind::Load(place) => is_place(at, place.get()) && load_fits(p, e.ty, place.get().ty),
        ExprKind::AddressOf(place) => {
            is_place(at, place.get())
                && is_outside(place.get())
                && address_fits(p, e.ty, place.get().ty)
        }
        ExprKind::Decay(place) => {
            is_place(at, place.get())
                && is_outside(place.get())
                && decay_fits(p, e.ty, place.get().ty)
        }
        ExprKind::Cast(inner) => is_expr(at, inner.get()) && cast_fits(p, e.ty, inner.get().ty),
        ExprKind::Convert(inner) => is_expr(at, inner.get()) && converts_to(p, e.ty, inner.get()),
        ExprKind::Unary(operator, inner) => {
            is_expr(at, inner.get()) && unary_fits(p, e.ty, *operator, inner.get().ty)
        }
        ExprKind::Binary(operator, a, b) => {
            is_expr(at, a.get())
                && is_expr(at, b.get())
                && binary_fits(p, e.ty, *operator, a.get().ty, b.get().ty)
        }
        ExprKind::Logical(_, a, b) => {
            is_expr(at, a.get())
                && is_expr(at, b.get())
                && logical_fits(p, e.ty, a.get().ty, b.get().ty)
        }
        ExprKind::Conditional(c, a, b) => {
            is_expr(at, c.get())
                && is_expr(at, a.get())
                && is_expr(at, b.get())
                && conditional_fits(p, e.ty, c.get().ty, a.get().ty, b.get().ty)
        }
    }
}

/// Whether the place has the type of its node.
#[cycle(is_expr)]
#[tactic(auto, using(src_meaning::proofs::ValidTrees::expression_facts))]
pub fn is_place(at: &Declarations, place: &TypedPlace) -> bool
    ensures { result ≡ spec.is_place (seen at.now) place.now.ty place.now.kind }
{
    let p = at.program;
    match &place.kind {
        PlaceKind::Global(number) => is_global(p, *number, place.ty),
        PlaceKind::Deref(e) => is_expr(at, e.get()) && points_to(type_of(p, e.get().ty), place.ty),
        PlaceKind::Arrow(e) => is_expr(at, e.get()) && points_to(type_of(p, e.get().ty), place.ty),
        PlaceKind::Item(pointer, index) => {
            is_expr(at, pointer.get())
                && is_expr(at, index.get())
                && item_fits(p, place.ty, pointer.get().ty, index.get().ty)
        }
        PlaceKind::Element(array, index) => {
            is_place(at, array.get())
                && is_expr(at, index.get())
                && element_fits(p, place.ty, array.get().ty, index.get().ty)
        }
        PlaceKind::Field(whole, number) => {
            is_place(at, whole.get())
                && is_field_of(
                    p.types.parts(),
                    type_of(p, whole.get().ty),
                    *number,
                    place.ty,
                )
        }
        PlaceKind::Member(whole, number) => {
            is_place(at, whole.get())
                && is_member_of(
                    p.types.parts(),
                    type_of(p, whole.get().ty),
                    *number,
                    place.ty,
                )
        }
    }
}

/// Whether the place can be assigned.
pub fn is_target(at: &Declarations, place: &TypedPlace) -> bool
    ensures { result ≡ spec.is_target (seen at.now) place.now }
{
    is_place(at, place) && !is_array(type_of(at.program, place.ty))
}

fn is_read_outside(e: &TypedExpr) -> bool
    ensures { result ≡ spec.is_read_outside e.now.kind }
{
    match &e.kind {
        ExprKind::Load(place) => is_outside(place.get()),
        ExprKind::Number(_) | ExprKind::SizeOf(_) | ExprKind::Local(_) => false,
        ExprKind::Function(_) | ExprKind::AddressOf(_) | ExprKind::Decay(_) => false,
        ExprKind::Cast(_) | ExprKind::Convert(_) | ExprKind::Unary(_, _) => false,
        ExprKind::Binary(_, _, _) | ExprKind::Logical(_, _, _) => false,
        ExprKind::Conditional(_, _, _) => false,
    }
}

/// Whether the value can be assigned to the type.
pub fn is_assignable(at: &Declarations, ty: TyId, e: &TypedExpr) -> bool
    ensures { result ≡ spec.is_assignable (seen at.now) ty e.now }
{
    is_expr(at, e) && e.ty == ty && (is_scalar(type_of(at.program, ty)) || is_read_outside(e))
}

pub fn is_condition(at: &Declarations, e: &TypedExpr) -> bool
    ensures { result ≡ spec.is_condition (seen at.now) e.now }
{
    is_expr(at, e) && is_scalar(type_of(at.program, e.ty))
}
