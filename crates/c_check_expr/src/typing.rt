// What an expression denotes, by recursion on its text.

ghost use Rattle.std.specs.Prelude.{◌≡◌, IfOk};
ghost use Rattle.c_ast.specs.Trees.{expression};
ghost use Rattle.c_check_expr.specs.Typing.{number_kind, number, variable, unsigned_kind, base_named, pointers, starred, named, sized, prefixed, denoted};

use crate::denoted::Denoted;
use crate::operators::{cast, conditional, inverted, operated, promotion};
use crate::places::{addressed, arrow, dereferenced, element, has_form, part};
use crate::values::node;
use c_ast::expr::{Access, Expr, UnaryOperator};
use c_ast::token::{Number, NumberKind};
use c_ast::types::{BaseType, TagKind, TypeName, UnsignedType};
use c_check_scope::checked::Checked;
use c_check_scope::operation::INT;
use c_check_scope::rule::Rule;
use c_check_scope::rules::Rules;
use c_check_scope::scope::{Meaning, Scope};
use c_check_scope::types::Types;
use c_types::{IntKind, Ty, TyId};
use lu_base::Name;
use sqlite_items::Boxed;
use src_tree::expr::{ExprKind, PlaceKind, TypedExpr, TypedPlace, UnaryOperator as Operator};
use std::alloc::{AllocError, Global};

#[tactic(auto, unfolding(crate::specs::Typing::number_kind))]
fn number_kind(kind: NumberKind) -> IntKind
    ensures { result ≡ number_kind kind }
{
    match kind {
        NumberKind::Int => IntKind::Int,
        NumberKind::UnsignedInt => IntKind::UInt,
        NumberKind::LongLong => IntKind::LongLong,
        NumberKind::UnsignedLongLong => IntKind::ULongLong,
    }
}

#[tactic(auto, unfolding(crate::specs::Typing::number))]
fn number(alloc: Global, types: &Types, n: Number) -> Result<Denoted, AllocError>
    ensures { IfOk result (λ d. d ≡ number types.now n) }
{
    if n.value == 0 && n.kind == NumberKind::Int {
        return Ok(Denoted::Null);
    }
    let ty = types.number_of(Ty::Int(number_kind(n.kind)));
    let kind = ExprKind::Number(n.value as i128);
    Ok(Denoted::Value(node(alloc, ty, kind)?))
}

#[tactic(auto, unfolding(crate::specs::Typing::character))]
fn character(alloc: Global, types: &Types, c: u8) -> Result<Denoted, AllocError>
    ensures { IfOk result (λ d. d ≡ Rattle.c_check_expr.specs.Typing.character types.now c) }
{
    let kind = ExprKind::Number(c as i128);
    Ok(Denoted::Value(node(alloc, types.number_of(INT), kind)?))
}

#[tactic(auto, unfolding(crate::specs::Typing::variable))]
fn variable(alloc: Global, meaning: Option<Meaning>) -> Result<Checked<Denoted>, AllocError>
    ensures { IfOk result (λ d. d ≡ variable meaning) }
{
    match meaning {
        None => Ok(Err(Rules::only(Rule::Undeclared))),
        Some(Meaning::Global(number, ty)) => {
            let kind = PlaceKind::Global(number);
            let place = Boxed::new(alloc, TypedPlace { ty, kind })?;
            Ok(Ok(Denoted::Place(place, false)))
        }
        Some(Meaning::Local(number, ty)) => Ok(Ok(Denoted::Local(number, ty))),
        Some(Meaning::Function(number, signature)) => {
            Ok(Ok(Denoted::Function(number, signature)))
        }
        Some(Meaning::BuiltIn(which)) => Ok(Ok(Denoted::BuiltIn(which))),
    }
}

#[tactic(auto, unfolding(crate::specs::Typing::unsigned_kind))]
fn unsigned_kind(ty: UnsignedType) -> IntKind
    ensures { result ≡ unsigned_kind ty }
{
    match ty {
        UnsignedType::Char => IntKind::UChar,
        UnsignedType::Short => IntKind::UShort,
        UnsignedType::Plain | UnsignedType::Int => IntKind::UInt,
        UnsignedType::LongLong => IntKind::ULongLong,
    }
}

#[tactic(auto, unfolding(crate::specs::Typing::tagged))]
fn tagged(scope: &Scope, by_value: bool, kind: TagKind, name: &Name) -> Checked<Ty>
    ensures { result ≡ Rattle.c_check_expr.specs.Typing.tagged scope.now by_value kind name.now }
{
    match scope.tag_of(name) {
        None => Err(Rules::only(Rule::UnknownTag)),
        Some(tag) => {
            if tag.kind != kind || by_value && !tag.is_declared {
                return Err(Rules::only(Rule::UnknownTag));
            }
            match kind {
                TagKind::Struct => Ok(Ty::Struct(tag.number)),
                TagKind::Union => Ok(Ty::Union(tag.number)),
            }
        }
    }
}

#[tactic(auto, unfolding(crate::specs::Typing::base_named))]
fn base_named(scope: &Scope, by_value: bool, base: &BaseType) -> Checked<Ty>
    ensures { result ≡ base_named scope.now by_value base.now }
{
    match base {
        BaseType::Void => Err(Rules::only(Rule::VoidValue)),
        BaseType::Char => Ok(Ty::Int(IntKind::Char)),
        BaseType::Short => Ok(Ty::Int(IntKind::Short)),
        BaseType::Int => Ok(Ty::Int(IntKind::Int)),
        BaseType::LongLong => Ok(Ty::Int(IntKind::LongLong)),
        BaseType::Unsigned(ty) => Ok(Ty::Int(unsigned_kind(*ty))),
        BaseType::Tagged(kind, name) => tagged(scope, by_value, *kind, name),
    }
}

#[tactic(auto, unfolding(crate::specs::Typing::pointers))]
fn pointers(types: &Types, stars: u8, ty: TyId) -> TyId
    ensures { result ≡ pointers types.now stars ty }
{
    if stars == 0 {
        ty
    } else {
        pointers(types, stars - 1, types.number_of(Ty::Pointer(ty)))
    }
}

#[tactic(auto, unfolding(crate::specs::Typing::starred))]
fn starred(types: &Types, stars: u8, base: Checked<Ty>) -> Checked<TyId>
    ensures { result ≡ starred types.now stars base }
{
    match base {
        Err(rules) => Err(rules),
        Ok(ty) => Ok(pointers(types, stars, types.number_of(ty))),
    }
}

/// The number of the type of a type's name.
#[tactic(auto, unfolding(crate::specs::Typing::named))]
pub fn named(scope: &Scope, name: &TypeName) -> Checked<TyId>
    ensures { result ≡ named scope.now name.now }
{
    if let BaseType::Void = name.base {
        if name.stars == 0 {
            return Err(Rules::only(Rule::VoidValue));
        }
        return starred(&scope.types, name.stars - 1, Ok(Ty::VoidPointer));
    }
    let base = base_named(scope, name.stars == 0, &name.base);
    starred(&scope.types, name.stars, base)
}

#[tactic(auto, unfolding(crate::specs::Typing::sized))]
fn sized(alloc: Global, scope: &Scope, name: &TypeName) -> Result<Checked<Denoted>, AllocError>
    ensures { IfOk result (λ d. d ≡ sized scope.now name.now) }
{
    match named(scope, name) {
        Err(rules) => Ok(Err(rules)),
        Ok(ty) => {
            let unsigned = scope.types.number_of(Ty::Int(IntKind::UInt));
            Ok(Ok(Denoted::Value(node(alloc, unsigned, ExprKind::SizeOf(ty))?)))
        }
    }
}

#[tactic(auto, unfolding(crate::specs::Typing::prefixed))]
fn prefixed(
    alloc: Global,
    types: &Types,
    operator: UnaryOperator,
    has_form: bool,
    e: Checked<Denoted>,
) -> Result<Checked<Denoted>, AllocError>
    ensures { IfOk result (λ d. d ≡ prefixed types.now operator has_form e) }
{
    match operator {
        UnaryOperator::Negate => promotion(alloc, types, Operator::Minus, e),
        UnaryOperator::Complement => promotion(alloc, types, Operator::Complement, e),
        UnaryOperator::Not => inverted(alloc, types, e),
        UnaryOperator::Dereference => dereferenced(alloc, types, e),
        UnaryOperator::AddressOf => addressed(alloc, types, has_form, e),
    }
}

#[tactic(auto, unfolding(crate::specs::Typing::accessed))]
fn accessed(
    alloc: Global,
    scope: &Scope,
    base: Checked<Denoted>,
    access: Access,
    name: &Name,
) -> Result<Checked<Denoted>, AllocError>
    ensures { IfOk result (λ d. d ≡ Rattle.c_check_expr.specs.Typing.accessed scope.now base access name.now) }
{
    match access {
        Access::Dot => part(alloc, scope, base, name),
        Access::Arrow => arrow(alloc, scope, base, name),
    }
}

/// What an expression denotes in a scope, or the rules that it breaks.
#[tactic(auto, using(c_ast::proofs::Views::views), unfolding(crate::specs::Typing::denoted))]
pub fn denoted(alloc: Global, scope: &Scope, e: &Expr) -> Result<Checked<Denoted>, AllocError>
    ensures { IfOk result (λ d. d ≡ denoted scope.now (expression e.now)) }
{
    match e {
        Expr::Number(n) => Ok(Ok(number(alloc, &scope.types, *n)?)),
        Expr::Character(c) => Ok(Ok(character(alloc, &scope.types, *c)?)),
        Expr::Name(name) => variable(alloc, scope.meaning_of(name)),
        Expr::Group(e) => denoted(alloc, scope, e.get()),
        Expr::SizeOf(name) => sized(alloc, scope, name),
        Expr::Index(base, index) => {
            let base = denoted(alloc, scope, base.get())?;
            let index = denoted(alloc, scope, index.get())?;
            element(alloc, &scope.types, base, index)
        }
        Expr::Member(base, access, name) => {
            let base = denoted(alloc, scope, base.get())?;
            accessed(alloc, scope, base, *access, name)
        }
        Expr::Unary(operator, e) => {
            let has_form = has_form(scope, e.get());
            let e = denoted(alloc, scope, e.get())?;
            prefixed(alloc, &scope.types, *operator, has_form, e)
        }
        Expr::Cast(name, e) => {
            let e = denoted(alloc, scope, e.get())?;
            cast(alloc, &scope.types, named(scope, name), e)
        }
        Expr::Binary(operator, a, b) => {
            let a = denoted(alloc, scope, a.get())?;
            let b = denoted(alloc, scope, b.get())?;
            operated(alloc, &scope.types, *operator, a, b)
        }
        Expr::Conditional(c, a, b) => {
            let c = denoted(alloc, scope, c.get())?;
            let a = denoted(alloc, scope, a.get())?;
            let b = denoted(alloc, scope, b.get())?;
            conditional(alloc, &scope.types, c, a, b)
        }
    }
}
