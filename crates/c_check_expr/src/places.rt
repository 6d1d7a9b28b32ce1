// Places: what they are made of, and their addresses.

ghost use Rattle.std.specs.Prelude.{◌≡◌, IfOk};
ghost use Rattle.c_check_scope.specs.Kinds.{element_of};
ghost use Rattle.c_check_expr.specs.Denoted.{type_at};
ghost use Rattle.c_check_expr.specs.Places.{target_of, place_base, index_of, based, item, element, part_place, part_within, part, arrow, dereferenced, is_variable, is_dereference, has_form, address_in, address_of, addressed};
ghost use Rattle.c_ast.specs.Trees.{expression};

use crate::denoted::Denoted;
use crate::values::{converted, node, type_at, value_of, valued};
use c_ast::expr::{Expr, UnaryOperator};
use c_check_scope::checked::{Checked, both};
use c_check_scope::kinds::{self, element_of, kind_of};
use c_check_scope::members::Part;
use c_check_scope::operation::LONG_LONG;
use c_check_scope::rule::Rule;
use c_check_scope::rules::Rules;
use c_check_scope::scope::{Meaning, Scope};
use c_check_scope::types::Types;
use c_types::{Ty, TyId};
use lu_base::Name;
use sqlite_items::Boxed;
use src_tree::expr::{ExprKind, PlaceKind, TypedExpr, TypedPlace};
use std::alloc::{AllocError, Global};

/// What `[ ]` goes into, with the number of its elements' type.
#[derive(Drop)]
pub enum Base {
    /// An array place, and whether it lies inside a union.
    Array(Boxed<TypedPlace>, bool, TyId),
    Pointer(Boxed<TypedExpr>, TyId),
}

fn place(alloc: Global, ty: TyId, kind: PlaceKind, inside: bool) -> Result<Denoted, AllocError>
    ensures { IfOk result (λ d. d ≡ Rattle.c_check_expr.specs.Places.placed ty kind inside) }
{
    Ok(Denoted::Place(Boxed::new(alloc, TypedPlace { ty, kind })?, inside))
}

/// The type to which a pointer to an object points.
#[tactic(auto, unfolding(crate::specs::Places::target_of))]
fn target_of(types: &Types, e: &TypedExpr) -> Option<TyId>
    ensures { result ≡ target_of types.now e.now }
{
    kinds::target_of(type_at(types, e.ty))
}

#[tactic(auto, unfolding(crate::specs::Places::pointer_base))]
fn pointer_base(types: &Types, e: Checked<Boxed<TypedExpr>>) -> Checked<Base>
    ensures { result ≡ Rattle.c_check_expr.specs.Places.pointer_base types.now e }
{
    match e {
        Err(rules) => Err(rules),
        Ok(e) => match target_of(types, e.get()) {
            None => Err(Rules::only(Rule::NoPointer)),
            Some(ty) => Ok(Base::Pointer(e, ty)),
        },
    }
}

fn place_base(
    alloc: Global,
    types: &Types,
    place: Boxed<TypedPlace>,
    inside: bool,
) -> Result<Checked<Base>, AllocError>
    ensures { IfOk result (λ b. b ≡ place_base types.now place inside (element_of (type_at types.now place.ty))) }
{
    match element_of(type_at(types, place.get().ty)) {
        None => {
            let e = value_of(alloc, types, Denoted::Place(place, inside))?;
            Ok(pointer_base(types, e))
        }
        Some(element) => Ok(Ok(Base::Array(place, inside, element))),
    }
}

#[tactic(auto, unfolding(crate::specs::Places::based))]
fn based(alloc: Global, types: &Types, base: Checked<Denoted>) -> Result<Checked<Base>, AllocError>
    ensures { IfOk result (λ b. b ≡ based types.now base) }
{
    match base {
        Ok(Denoted::Place(place, inside)) => place_base(alloc, types, place, inside),
        other => {
            let e = valued(alloc, types, other)?;
            Ok(pointer_base(types, e))
        }
    }
}

#[tactic(auto, unfolding(crate::specs::Places::index_of))]
fn index_of(
    alloc: Global,
    types: &Types,
    index: Checked<Boxed<TypedExpr>>,
) -> Result<Checked<Boxed<TypedExpr>>, AllocError>
    ensures { IfOk result (λ i. i ≡ index_of types.now index) }
{
    match index {
        Err(rules) => Ok(Err(rules)),
        Ok(e) => match kind_of(type_at(types, e.get().ty)) {
            None => Ok(Err(Rules::only(Rule::Operands))),
            Some(_) => Ok(Ok(converted(alloc, types.number_of(LONG_LONG), e)?)),
        },
    }
}

#[tactic(auto, unfolding(crate::specs::Places::item))]
fn item(alloc: Global, base: Base, index: Boxed<TypedExpr>) -> Result<Denoted, AllocError>
    ensures { IfOk result (λ d. d ≡ item base index) }
{
    match base {
        Base::Array(array, inside, ty) => {
            place(alloc, ty, PlaceKind::Element(array, index), inside)
        }
        Base::Pointer(e, ty) => place(alloc, ty, PlaceKind::Item(e, index), false),
    }
}

/// `base [ index ]`
#[tactic(auto, unfolding(crate::specs::Places::element))]
pub fn element(
    alloc: Global,
    types: &Types,
    base: Checked<Denoted>,
    index: Checked<Denoted>,
) -> Result<Checked<Denoted>, AllocError>
    ensures { IfOk result (λ d. d ≡ element types.now base index) }
{
    let base = based(alloc, types, base)?;
    let index = valued(alloc, types, index)?;
    let index = index_of(alloc, types, index)?;
    match both(base, index) {
        Err(rules) => Ok(Err(rules)),
        Ok((base, index)) => Ok(Ok(item(alloc, base, index)?)),
    }
}

#[tactic(auto, unfolding(crate::specs::Places::part_place))]
fn part_place(
    alloc: Global,
    base: Boxed<TypedPlace>,
    inside: bool,
    part: Part,
) -> Result<Denoted, AllocError>
    ensures { IfOk result (λ d. d ≡ part_place base inside part) }
{
    if part.in_union {
        place(alloc, part.ty, PlaceKind::Member(base, part.index), true)
    } else {
        place(alloc, part.ty, PlaceKind::Field(base, part.index), inside)
    }
}

#[tactic(auto, unfolding(crate::specs::Places::part_within))]
fn part_within(
    alloc: Global,
    scope: &Scope,
    base: Boxed<TypedPlace>,
    inside: bool,
    name: &Name,
) -> Result<Checked<Denoted>, AllocError>
    ensures { IfOk result (λ d. d ≡ part_within scope.now base inside name.now) }
{
    match scope.part_named(type_at(&scope.types, base.get().ty), name) {
        None => Ok(Err(Rules::only(Rule::NoField))),
        Some(part) => Ok(Ok(part_place(alloc, base, inside, part)?)),
    }
}

#[tactic(auto, unfolding(crate::specs::Places::no_part))]
fn no_part(e: Checked<Boxed<TypedExpr>>) -> Rules
    ensures { result ≡ Rattle.c_check_expr.specs.Places.no_part e }
{
    match e {
        Err(rules) => rules,
        Ok(_) => Rules::only(Rule::NoField),
    }
}

/// `base . name`
#[tactic(auto, unfolding(crate::specs::Places::part))]
pub fn part(
    alloc: Global,
    scope: &Scope,
    base: Checked<Denoted>,
    name: &Name,
) -> Result<Checked<Denoted>, AllocError>
    ensures { IfOk result (λ d. d ≡ part scope.now base name.now) }
{
    match base {
        Ok(Denoted::Place(place, inside)) => part_within(alloc, scope, place, inside, name),
        other => {
            let e = valued(alloc, &scope.types, other)?;
            Ok(Err(no_part(e)))
        }
    }
}

/// `e -> name`
#[tactic(auto, unfolding(crate::specs::Places::arrow))]
pub fn arrow(
    alloc: Global,
    scope: &Scope,
    base: Checked<Denoted>,
    name: &Name,
) -> Result<Checked<Denoted>, AllocError>
    ensures { IfOk result (λ d. d ≡ arrow scope.now base name.now) }
{
    match valued(alloc, &scope.types, base)? {
        Err(rules) => Ok(Err(rules)),
        Ok(e) => match target_of(&scope.types, e.get()) {
            None => Ok(Err(Rules::only(Rule::NoField))),
            Some(ty) => {
                let kind = PlaceKind::Arrow(e);
                let base = Boxed::new(alloc, TypedPlace { ty, kind })?;
                part_within(alloc, scope, base, false, name)
            }
        },
    }
}

/// `* e`
#[tactic(auto, unfolding(crate::specs::Places::dereferenced))]
pub fn dereferenced(
    alloc: Global,
    types: &Types,
    e: Checked<Denoted>,
) -> Result<Checked<Denoted>, AllocError>
    ensures { IfOk result (λ d. d ≡ dereferenced types.now e) }
{
    match valued(alloc, types, e)? {
        Err(rules) => Ok(Err(rules)),
        Ok(e) => match target_of(types, e.get()) {
            None => Ok(Err(Rules::only(Rule::NoPointer))),
            Some(ty) => Ok(Ok(place(alloc, ty, PlaceKind::Deref(e), false)?)),
        },
    }
}

#[tactic(auto, unfolding(crate::specs::Places::is_variable))]
fn is_variable(meaning: Option<Meaning>) -> bool
    ensures { result ≡ is_variable meaning }
{
    match meaning {
        Some(Meaning::Global(_, _) | Meaning::Local(_, _)) => true,
        _ => false,
    }
}

#[tactic(auto, unfolding(crate::specs::Places::is_dereference))]
fn is_dereference(operator: UnaryOperator) -> bool
    ensures { result ≡ is_dereference operator }
{
    match operator {
        UnaryOperator::Dereference => true,
        _ => false,
    }
}

/// Whether an expression has the form of a place: a variable's name, `*e`, `e[i]`, `e.f` or `e->f`.
#[tactic(auto, using(c_ast::proofs::Views::views), unfolding(crate::specs::Places::has_form))]
pub fn has_form(scope: &Scope, e: &Expr) -> bool
    ensures { result ≡ has_form scope.now (expression e.now) }
{
    match e {
        Expr::Name(name) => is_variable(scope.meaning_of(name)),
        Expr::Group(e) => has_form(scope, e.get()),
        Expr::Index(_, _) | Expr::Member(_, _, _) => true,
        Expr::Unary(operator, _) => is_dereference(*operator),
        Expr::Number(_)
        | Expr::Character(_)
        | Expr::SizeOf(_)
        | Expr::Cast(_, _)
        | Expr::Binary(_, _, _)
        | Expr::Conditional(_, _, _) => false,
    }
}

fn place_address(
    alloc: Global,
    types: &Types,
    place: Boxed<TypedPlace>,
    inside: bool,
) -> Result<Checked<Denoted>, AllocError>
    ensures { IfOk result (λ d. d ≡ address_in types.now place inside (element_of (type_at types.now place.ty))) }
{
    let number = place.get().ty;
    match element_of(type_at(types, number)) {
        Some(_) => Ok(Err(Rules::only(Rule::NotPlace))),
        None => {
            if inside {
                return Ok(Err(Rules::only(Rule::NoAddress)));
            }
            let ty = types.number_of(Ty::Pointer(number));
            let e = node(alloc, ty, ExprKind::AddressOf(place))?;
            Ok(Ok(Denoted::Value(e)))
        }
    }
}

#[tactic(auto, unfolding(crate::specs::Places::address_of))]
fn address_of(
    alloc: Global,
    types: &Types,
    denoted: Denoted,
) -> Result<Checked<Denoted>, AllocError>
    ensures { IfOk result (λ d. d ≡ address_of types.now denoted) }
{
    match denoted {
        Denoted::Place(place, inside) => place_address(alloc, types, place, inside),
        Denoted::Local(_, _) => Ok(Err(Rules::only(Rule::NoAddress))),
        _ => Ok(Err(Rules::only(Rule::NotPlace))),
    }
}

/// The broken rules of an expression that is to be a place, and breaks rules.
#[tactic(auto, unfolding(crate::specs::Places::unplaced))]
pub fn unplaced(has_form: bool, rules: Rules) -> Rules
    ensures { result ≡ Rattle.c_check_expr.specs.Places.unplaced has_form rules }
{
    if has_form {
        rules
    } else {
        Rules::union(rules, Rules::only(Rule::NotPlace))
    }
}

/// `& e`, where `has_form` says whether `e` has the form of a place.
#[tactic(auto, unfolding(crate::specs::Places::addressed))]
pub fn addressed(
    alloc: Global,
    types: &Types,
    has_form: bool,
    e: Checked<Denoted>,
) -> Result<Checked<Denoted>, AllocError>
    ensures { IfOk result (λ d. d ≡ addressed types.now has_form e) }
{
    match e {
        Err(rules) => Ok(Err(unplaced(has_form, rules))),
        Ok(denoted) => address_of(alloc, types, denoted),
    }
}
