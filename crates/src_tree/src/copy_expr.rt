// Copies of expressions and places.

ghost use Rattle.std.specs.Prelude.{◌≡◌, IfOk};

use crate::expr::{ExprKind, PlaceKind, TypedExpr, TypedPlace};
use lu_base::Memory;
use sqlite_items::{Boxed, Items};
use std::alloc::Global;

/// An equal expression.
#[cycle(copy_expr)]
pub fn copy_expr(alloc: Global, e: &TypedExpr) -> Result<TypedExpr, Memory>
    ensures { IfOk result (λ copy. copy ≡ e.now) }
{
    Ok(TypedExpr {
        ty: e.ty,
        kind: copy_expr_kind(alloc, &e.kind)?,
    })
}

#[cycle(copy_expr)]
fn copy_boxed_expr(alloc: Global, e: &Boxed<TypedExpr>) -> Result<Boxed<TypedExpr>, Memory>
    ensures { IfOk result (λ copy. copy ≡ e.now) }
{
    Ok(Boxed::new(alloc, copy_expr(alloc, e.get())?)?)
}

#[cycle(copy_expr)]
fn copy_expr_kind(alloc: Global, kind: &ExprKind) -> Result<ExprKind, Memory>
    ensures { IfOk result (λ copy. copy ≡ kind.now) }
{
    match kind {
        ExprKind::Number(z) => Ok(ExprKind::Number(*z)),
        ExprKind::SizeOf(t) => Ok(ExprKind::SizeOf(*t)),
        ExprKind::Local(x) => Ok(ExprKind::Local(*x)),
        ExprKind::Function(f) => Ok(ExprKind::Function(*f)),
        ExprKind::Load(e) => Ok(ExprKind::Load(copy_boxed_place(alloc, e)?)),
        ExprKind::AddressOf(e) => Ok(ExprKind::AddressOf(copy_boxed_place(alloc, e)?)),
        ExprKind::Decay(e) => Ok(ExprKind::Decay(copy_boxed_place(alloc, e)?)),
        ExprKind::Cast(e) => Ok(ExprKind::Cast(copy_boxed_expr(alloc, e)?)),
        ExprKind::Convert(e) => Ok(ExprKind::Convert(copy_boxed_expr(alloc, e)?)),
        ExprKind::Unary(op, e) => Ok(ExprKind::Unary(*op, copy_boxed_expr(alloc, e)?)),
        ExprKind::Binary(op, a, b) => Ok(ExprKind::Binary(
            *op,
            copy_boxed_expr(alloc, a)?,
            copy_boxed_expr(alloc, b)?,
        )),
        ExprKind::Logical(op, a, b) => Ok(ExprKind::Logical(
            *op,
            copy_boxed_expr(alloc, a)?,
            copy_boxed_expr(alloc, b)?,
        )),
        ExprKind::Conditional(c, a, b) => Ok(ExprKind::Conditional(
            copy_boxed_expr(alloc, c)?,
            copy_boxed_expr(alloc, a)?,
            copy_boxed_expr(alloc, b)?,
        )),
    }
}

/// An equal place.
#[cycle(copy_expr)]
pub fn copy_place(alloc: Global, e: &TypedPlace) -> Result<TypedPlace, Memory>
    ensures { IfOk result (λ copy. copy ≡ e.now) }
{
    Ok(TypedPlace {
        ty: e.ty,
        kind: copy_place_kind(alloc, &e.kind)?,
    })
}

#[cycle(copy_expr)]
fn copy_boxed_place(alloc: Global, e: &Boxed<TypedPlace>) -> Result<Boxed<TypedPlace>, Memory>
    ensures { IfOk result (λ copy. copy ≡ e.now) }
{
    Ok(Boxed::new(alloc, copy_place(alloc, e.get())?)?)
}

#[cycle(copy_expr)]
fn copy_place_kind(alloc: Global, kind: &PlaceKind) -> Result<PlaceKind, Memory>
    ensures { IfOk result (λ copy. copy ≡ kind.now) }
{
    match kind {
        PlaceKind::Global(g) => Ok(PlaceKind::Global(*g)),
        PlaceKind::Deref(e) => Ok(PlaceKind::Deref(copy_boxed_expr(alloc, e)?)),
        PlaceKind::Arrow(e) => Ok(PlaceKind::Arrow(copy_boxed_expr(alloc, e)?)),
        PlaceKind::Item(p, i) => Ok(PlaceKind::Item(
            copy_boxed_expr(alloc, p)?,
            copy_boxed_expr(alloc, i)?,
        )),
        PlaceKind::Element(a, i) => Ok(PlaceKind::Element(
            copy_boxed_place(alloc, a)?,
            copy_boxed_expr(alloc, i)?,
        )),
        PlaceKind::Field(e, k) => Ok(PlaceKind::Field(copy_boxed_place(alloc, e)?, *k)),
        PlaceKind::Member(e, k) => Ok(PlaceKind::Member(copy_boxed_place(alloc, e)?, *k)),
    }
}

/// Equal expressions.
pub fn copy_exprs(alloc: Global, es: &[TypedExpr]) -> Result<Items<TypedExpr>, Memory>
    ensures { IfOk result (λ copies. copies ≡ es.now) }
{
    let mut copies = Items::new(alloc);
    for e in es {
        copies.push(copy_expr(alloc, e)?)?;
    }
    Ok(copies)
}
