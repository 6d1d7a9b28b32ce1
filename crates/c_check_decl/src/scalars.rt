// Initialisers of scalars, and strings.

ghost use Rattle.std.specs.Prelude.{◌≡◌, IfOk, length};
ghost use Rattle.c_ast.specs.Trees.{expression};
ghost use Rattle.src_meaning.specs.ValidInitialiser as valid;
ghost use Rattle.c_check_decl.specs.Globals as spec;

use crate::constants::is_start_value;
use c_ast::expr::Expr;
use c_check_expr::uses::right_side;
use c_check_expr::values::type_at;
use c_check_scope::checked::Checked;
use c_check_scope::rule::Rule;
use c_check_scope::rules::Rules;
use c_check_scope::scope::Scope;
use c_types::{IntKind, Parts, Ty, TyId};
use lu_base::{Bytes8, Name};
use sqlite_items::Boxed;
use src_tree::expr::TypedExpr;
use src_tree::program::{Init, Program};
use std::alloc::{AllocError, Global};

/// The signature of a function of the text.
#[tactic(auto, unfolding(crate::specs::Globals::signature_of))]
fn signature_of(scope: &Scope, functions: &[Option<u32>], name: &Name) -> Option<u32>
    ensures { result ≡ spec.signature_of scope.now functions.now name.now }
{
    match scope.names.number_of(name) {
        None => None,
        Some(number) => match functions.get(number) {
            None => None,
            Some(signature) => *signature,
        },
    }
}

fn points_to(ty: Ty, signature: Option<u32>) -> bool
    ensures { result ≡ spec.points_to ty signature }
{
    match (ty, signature) {
        (Ty::Function(g), Some(h)) => g == h,
        _ => false,
    }
}

#[tactic(auto, unfolding(crate::specs::Globals::waits))]
fn waits(scope: &Scope, functions: &[Option<u32>], ty: Ty, name: &Name) -> bool
    ensures { result ≡ spec.waits scope.now functions.now ty name.now }
{
    !scope.meaning_of(name).is_some() && points_to(ty, signature_of(scope, functions, name))
}

/// Whether it names a function of the type to which a pointer points, and that is declared only later.
#[tactic(auto, using(c_ast::proofs::Views::views), unfolding(crate::specs::Globals::is_later))]
fn is_later(scope: &Scope, functions: &[Option<u32>], ty: Ty, e: &Expr) -> bool
    ensures { result ≡ spec.is_later scope.now functions.now ty (expression e.now) }
{
    match e {
        Expr::Name(name) => waits(scope, functions, ty, name),
        Expr::Group(e) => is_later(scope, functions, ty, e.get()),
        Expr::Number(_)
        | Expr::Character(_)
        | Expr::SizeOf(_)
        | Expr::Index(_, _)
        | Expr::Member(_, _, _)
        | Expr::Unary(_, _)
        | Expr::Cast(_, _)
        | Expr::Binary(_, _, _)
        | Expr::Conditional(_, _, _) => false,
    }
}

#[tactic(auto, unfolding(crate::specs::Globals::settled))]
fn settled(types: &Program, e: Checked<Boxed<TypedExpr>>) -> Checked<Init>
    ensures { result ≡ spec.settled types.now e }
{
    match e {
        Err(rules) => Err(Rules::union(Rules::only(Rule::Initialiser), rules)),
        Ok(e) => {
            if is_start_value(types, e.get()) {
                Ok(Init::One(e.into_inner()))
            } else {
                Err(Rules::only(Rule::Initialiser))
            }
        }
    }
}

/// An expression as the initialiser of the type of this number.
#[tactic(auto, unfolding(crate::specs::Globals::single))]
pub fn single(
    alloc: Global,
    scope: &Scope,
    types: &Program,
    functions: &[Option<u32>],
    ty: TyId,
    e: &Expr,
) -> Result<Checked<Init>, AllocError>
    requires { types.now ≡ spec.types_alone scope.now.types }
    ensures { IfOk result (λ init. init ≡ spec.single scope.now functions.now ty (expression e.now)) }
{
    if is_later(scope, functions, type_at(&scope.types, ty), e) {
        return Ok(Err(Rules::only(Rule::Undeclared)));
    }
    Ok(settled(types, right_side(alloc, scope, ty, e)?))
}

fn is_character(ty: Option<Ty>) -> bool
    ensures { result ≡ valid.is_character ty }
{
    matches!(
        ty,
        Some(Ty::Int(IntKind::Char)) | Some(Ty::Int(IntKind::UChar))
    )
}

fn takes_bytes(parts: &Parts, ty: Option<Ty>, count: usize) -> bool
    ensures { result ≡ valid.takes_bytes parts.now ty count }
{
    match ty {
        Some(Ty::Array(element, length)) => {
            is_character(parts.find_type(element)) && count <= length as usize
        }
        _ => false,
    }
}

/// A string as the initialiser of the type of this number.
#[tactic(auto, unfolding(crate::specs::Globals::text))]
pub fn text(
    alloc: Global,
    parts: &Parts,
    ty: TyId,
    bytes: &Bytes8,
) -> Result<Checked<Init>, AllocError>
    ensures { IfOk result (λ init. init ≡ spec.text parts.now ty bytes.now) }
{
    if takes_bytes(parts, parts.find_type(ty), bytes.as_slice().len()) {
        let bytes = Vec::from_slice(alloc, bytes.as_slice())?;
        Ok(Ok(Init::Text(Bytes8::new(bytes))))
    } else {
        Ok(Err(Rules::only(Rule::Initialiser)))
    }
}
