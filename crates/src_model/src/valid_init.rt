// Initialisers of globals as the rules ask for them, with their depth.

ghost use Rattle.std.specs.Prelude.{◌≡◌, ◌-◌, ◌&&◌, nat_lt};
ghost use Rattle.src_meaning.specs.ValidInitialiser as spec;

use crate::constant::evaluate;
use crate::valid_expr::{Declarations, is_expr};
use crate::valid_fits::type_of;
use crate::valid_stmt::has_depth;
use crate::valid_types::is_scalar;
use c_types::{IntKind, Ty, TyId};
use src_meaning::constant::Constant;
use src_tree::expr::{ExprKind, PlaceKind, TypedExpr, TypedPlace};
use src_tree::program::{Init, Program};

/// The room of a global's initialiser.
const INITIAL_ROOM: u32 = 64;

fn place_is_before(global: u32, place: &TypedPlace) -> bool
    ensures { result ≡ spec.place_is_before global place.now.kind }
{
    match &place.kind {
        PlaceKind::Global(number) => *number < global,
        PlaceKind::Deref(_) | PlaceKind::Arrow(_) | PlaceKind::Item(_, _) => true,
        PlaceKind::Element(_, _) | PlaceKind::Field(_, _) | PlaceKind::Member(_, _) => true,
    }
}

/// Whether an address is that of a global before this one.
#[tactic(auto, using(src_meaning::proofs::ValidTrees::before_facts))]
fn is_before(global: u32, e: &TypedExpr) -> bool
    ensures { result ≡ spec.is_before global e.now.kind }
{
    match &e.kind {
        ExprKind::AddressOf(place) => place_is_before(global, place.get()),
        ExprKind::Decay(place) => place_is_before(global, place.get()),
        ExprKind::Number(_) | ExprKind::SizeOf(_) | ExprKind::Local(_) => true,
        ExprKind::Function(_) | ExprKind::Load(_) | ExprKind::Cast(_) => true,
        ExprKind::Convert(_) | ExprKind::Unary(_, _) | ExprKind::Binary(_, _, _) => true,
        ExprKind::Logical(_, _, _) | ExprKind::Conditional(_, _, _) => true,
    }
}

/// Whether the expression names globals and functions alone, and is typed as the rules type it.
pub fn is_typed(p: &Program, e: &TypedExpr) -> bool
    ensures { result ≡ spec.is_typed p.now e.now }
{
    let at = Declarations {
        program: p,
        params: &[],
        locals: &[],
    };
    is_expr(&at, e)
}

fn has_value(p: &Program, e: &TypedExpr) -> bool
    ensures { result ≡ spec.has_value p.now e.now }
{
    match evaluate(p, e) {
        Some(_) => true,
        None => false,
    }
}

fn is_constant_of(p: &Program, global: u32, ty: TyId, e: &TypedExpr) -> bool
    ensures { result ≡ spec.is_constant_of p.now global ty e.now }
{
    is_typed(p, e)
        && e.ty == ty
        && is_scalar(type_of(p, ty))
        && has_value(p, e)
        && is_before(global, e)
}

fn is_character(ty: Option<Ty>) -> bool
    ensures { result ≡ spec.is_character ty }
{
    matches!(
        ty,
        Some(Ty::Int(IntKind::Char)) | Some(Ty::Int(IntKind::UChar))
    )
}

fn takes_bytes(p: &Program, ty: Option<Ty>, count: usize) -> bool
    ensures { result ≡ spec.takes_bytes p.now.types ty count }
{
    match ty {
        Some(Ty::Array(element, length)) => {
            is_character(type_of(p, element)) && count <= length as usize
        }
        _ => false,
    }
}

fn item_type(p: &Program, ty: TyId, number: usize) -> Option<TyId>
    ensures { result ≡ spec.item_type p.now.types ty number }
{
    match type_of(p, ty) {
        Some(Ty::Array(element, length)) => {
            if number < length as usize {
                Some(element)
            } else {
                None
            }
        }
        Some(Ty::Struct(tag)) => match p.types.parts().fields_of(tag).get(number) {
            None => None,
            Some(field) => Some(field.ty),
        },
        _ => None,
    }
}

fn is_filled(inits: &[Init]) -> bool
    ensures { result ≡ spec.is_no_empty_list inits.now }
{
    !inits.is_empty()
}

/// Whether this may be the initialiser of a part of the global that has the type, where there is this room.
#[cycle(is_initialiser)]
fn is_initialiser(p: &Program, global: u32, room: u32, ty: TyId, init: &Init) -> bool
    ensures { result ≡ spec.is_initialiser p.now global room ty init.now }
{
    match init {
        Init::Zero => false,
        Init::One(e) => is_constant_of(p, global, ty, e) && has_depth(room, e),
        Init::Text(bytes) => 0 < room && takes_bytes(p, type_of(p, ty), bytes.as_slice().len()),
        Init::List(inits) => {
            0 < room
                && is_filled(inits.as_slice())
                && are_items(p, global, room.saturating_sub(1), ty, inits.as_slice())
        }
    }
}

#[cycle(is_initialiser)]
fn is_item(p: &Program, global: u32, room: u32, ty: TyId, number: usize, init: &Init) -> bool
    ensures { result ≡ spec.is_item p.now global room ty number init.now }
{
    match item_type(p, ty, number) {
        None => false,
        Some(ty) => is_initialiser(p, global, room, ty, init),
    }
}

/// Whether these may be the items of the type between braces.
#[cycle(is_initialiser)]
#[tactic(auto, using(src_meaning::proofs::ValidItems::item_facts))]
fn are_items(p: &Program, global: u32, room: u32, ty: TyId, inits: &[Init]) -> bool
    ensures { result ≡ spec.are_listed p.now global room ty 0 inits.now }
{
    let mut number = 0;
    let mut fits = true;
    for init in inits {
        fits = fits & is_item(p, global, room, ty, number, init);
        number += 1;
    }
    fits
}

/// Whether the global of this number and type may begin so.
pub fn is_start(p: &Program, global: u32, ty: TyId, init: &Init) -> bool
    ensures { result ≡ spec.is_start p.now global ty init.now }
{
    match init {
        Init::Zero => true,
        Init::One(_) | Init::Text(_) | Init::List(_) => {
            is_initialiser(p, global, INITIAL_ROOM, ty, init)
        }
    }
}
