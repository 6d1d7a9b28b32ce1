// Calls: what is called, arguments, and where the built-in functions stand.

ghost use Rattle.std.specs.Prelude.{◌≡◌, [], IfOk, slice_get};
ghost use Rattle.std.specs.Option.{option_map};
ghost use Rattle.c_ast.specs.Trees.{expression, expressions};
ghost use Rattle.c_check_expr.specs.Calls.{pointer_callee, callee_of, params_of, answer_of, argument_at, more, gathered, arguments, size_form, elem_of, elem_in, as_statement, not_void, stands, callee_node, front, kept, made_call, call, call_value};

use crate::denoted::Denoted;
use crate::typing::{denoted, named};
use crate::uses::right_side;
use crate::values::{type_at, valued};
use c_ast::expr::Expr;
use c_check_scope::checked::{Checked, both, broken};
use c_check_scope::conversions::converts;
use c_check_scope::kinds::signature_of;
use c_check_scope::operand::Operand;
use c_check_scope::operation::{INT, LONG_LONG};
use c_check_scope::rule::Rule;
use c_check_scope::rules::Rules;
use c_check_scope::scope::{BuiltIn, Scope};
use c_check_scope::types::Types;
use c_types::{IntKind, Ty, TyId};
use sqlite_items::{Boxed, Items, at};
use src_tree::expr::TypedExpr;
use src_tree::stmt::{Call, Callee};
use std::alloc::{AllocError, Global};

/// Where a call stands.
#[derive(Clone, Copy, Debug, PartialEq, Eq)]
pub enum Position {
    /// As a whole statement.
    Statement,
    /// As the right side of an assignment, or a local's initialiser.
    RightSide,
    /// As the value of a `return`.
    Return,
}

/// What is called.
#[derive(Drop)]
pub enum Called {
    /// A function by its name, with its number and that of its signature.
    Function(u32, u32),
    /// What a function pointer points to, with the number of the signature.
    Pointer(Boxed<TypedExpr>, u32),
    BuiltIn(BuiltIn),
}

/// A call that keeps the rules.
#[derive(Drop)]
pub struct Invocation {
    pub call: Call,
    /// The type of its result; none for `void`.
    pub answer: Option<TyId>,
    /// The type of the elements that it allocates, if any.
    pub elem: Option<TyId>,
}

#[tactic(auto, unfolding(crate::specs::Calls::pointer_callee))]
fn pointer_callee(types: &Types, e: Boxed<TypedExpr>) -> Checked<Called>
    ensures { result ≡ pointer_callee types.now e }
{
    match signature_of(type_at(types, e.get().ty)) {
        None => Err(Rules::only(Rule::Callee)),
        Some(signature) => Ok(Called::Pointer(e, signature)),
    }
}

/// What is called by a callee.
#[tactic(auto, unfolding(crate::specs::Calls::callee_of))]
fn callee_of(
    alloc: Global,
    types: &Types,
    callee: Checked<Denoted>,
) -> Result<Checked<Called>, AllocError>
    ensures { IfOk result (λ c. c ≡ callee_of types.now callee) }
{
    match callee {
        Ok(Denoted::Function(number, signature)) => Ok(Ok(Called::Function(number, signature))),
        Ok(Denoted::BuiltIn(which)) => Ok(Ok(Called::BuiltIn(which))),
        other => match valued(alloc, types, other)? {
            Err(rules) => Ok(Err(rules)),
            Ok(e) => Ok(pointer_callee(types, e)),
        },
    }
}

#[tactic(auto, unfolding(crate::specs::Calls::signature_params))]
fn signature_params(alloc: Global, types: &Types, signature: u32) -> Result<Vec<TyId>, AllocError>
    ensures { IfOk result (λ params. params.items ≡ Rattle.c_check_expr.specs.Calls.signature_params types.now signature) }
{
    match types.parts().signatures.as_slice().get(signature as usize) {
        None => Ok(Vec::new(alloc)),
        Some(signature) => Vec::from_slice(alloc, signature.params.as_slice()),
    }
}

#[tactic(auto, unfolding(crate::specs::Calls::signature_answer))]
fn signature_answer(types: &Types, signature: u32) -> Option<TyId>
    ensures { result ≡ Rattle.c_check_expr.specs.Calls.signature_answer types.now signature }
{
    match types.parts().signatures.as_slice().get(signature as usize) {
        None => None,
        Some(signature) => signature.result,
    }
}

#[tactic(auto, unfolding(crate::specs::Calls::built_in_params))]
fn built_in_params(alloc: Global, types: &Types, which: BuiltIn) -> Result<Vec<TyId>, AllocError>
    ensures { IfOk result (λ params. params.items ≡ Rattle.c_check_expr.specs.Calls.built_in_params types.now which) }
{
    let size = types.number_of(Ty::Int(IntKind::UInt));
    match which {
        BuiltIn::Send | BuiltIn::Panic => Ok(vec![in alloc; types.number_of(INT)]?),
        BuiltIn::Malloc => Ok(vec![in alloc; size]?),
        BuiltIn::Calloc => Ok(vec![in alloc; types.number_of(LONG_LONG), size]?),
        BuiltIn::Free => Ok(vec![in alloc; types.number_of(Ty::VoidPointer)]?),
    }
}

#[tactic(auto, unfolding(crate::specs::Calls::params_of))]
fn params_of(alloc: Global, types: &Types, called: &Called) -> Result<Vec<TyId>, AllocError>
    ensures { IfOk result (λ params. params.items ≡ params_of types.now called.now) }
{
    match called {
        Called::Function(_, signature) => signature_params(alloc, types, *signature),
        Called::Pointer(_, signature) => signature_params(alloc, types, *signature),
        Called::BuiltIn(which) => built_in_params(alloc, types, *which),
    }
}

#[tactic(auto, unfolding(crate::specs::Calls::answer_of))]
fn answer_of(types: &Types, called: &Called) -> Option<TyId>
    ensures { result ≡ answer_of types.now called.now }
{
    match called {
        Called::Function(_, signature) => signature_answer(types, *signature),
        Called::Pointer(_, signature) => signature_answer(types, *signature),
        Called::BuiltIn(BuiltIn::Send) => Some(types.number_of(INT)),
        Called::BuiltIn(BuiltIn::Malloc | BuiltIn::Calloc) => {
            Some(types.number_of(Ty::VoidPointer))
        }
        Called::BuiltIn(_) => None,
    }
}

#[tactic(auto, unfolding(crate::specs::Calls::more))]
fn more(
    list: Checked<Items<TypedExpr>>,
    e: Checked<Boxed<TypedExpr>>,
) -> Result<Checked<Items<TypedExpr>>, AllocError>
    ensures { IfOk result (λ l. l ≡ more list e) }
{
    match both(list, e) {
        Err(rules) => Ok(Err(rules)),
        Ok((mut list, e)) => {
            list.push(e.into_inner())?;
            Ok(Ok(list))
        }
    }
}

#[tactic(auto, unfolding(crate::specs::Calls::argument))]
fn argument(
    alloc: Global,
    scope: &Scope,
    param: Option<TyId>,
    e: &Expr,
) -> Result<Checked<Boxed<TypedExpr>>, AllocError>
    ensures { IfOk result (λ a. a ≡ Rattle.c_check_expr.specs.Calls.argument scope.now param (expression e.now)) }
{
    match param {
        None => {
            let denoted = denoted(alloc, scope, e)?;
            valued(alloc, &scope.types, denoted)
        }
        Some(ty) => right_side(alloc, scope, ty, e),
    }
}

fn param_at(params: &[TyId], index: usize) -> Option<TyId>
    ensures { result ≡ Rattle.std.specs.Prelude.slice_get params.now index }
{
    match params.get(index) {
        None => None,
        Some(ty) => Some(*ty),
    }
}

fn expr_at(args: &[Expr], index: usize) -> Option<&Expr>
    ensures { slice_get (expressions args.now) index ≡ option_map (λ e. expression e.now) result }
{
    at(args, index)
}

#[tactic(auto, unfolding(crate::specs::Calls::argument_at))]
fn argument_at(
    alloc: Global,
    scope: &Scope,
    params: &[TyId],
    args: &[Expr],
    index: usize,
) -> Result<Checked<Boxed<TypedExpr>>, AllocError>
    ensures { IfOk result (λ a. a ≡ argument_at scope.now (slice_get params.now index) (slice_get (expressions args.now) index)) }
{
    match expr_at(args, index) {
        None => Ok(Err(Rules::only(Rule::Callee))),
        Some(e) => argument(alloc, scope, param_at(params, index), e),
    }
}

#[tactic(auto, unfolding(crate::specs::Calls::gathered))]
fn gathered(
    alloc: Global,
    scope: &Scope,
    params: &[TyId],
    args: &[Expr],
) -> Result<Checked<Items<TypedExpr>>, AllocError>
    ensures { IfOk result (λ l. l ≡ gathered scope.now (expressions args.now) params.now) }
{
    let mut list: Checked<Items<TypedExpr>> = Ok(Items::new(alloc));
    for index in 0..args.len() {
        let next = argument_at(alloc, scope, params, args, index)?;
        list = more(list, next)?;
    }
    Ok(list)
}

/// The arguments, each for its parameter.
#[tactic(auto, using(crate::proofs::Arguments::expressions_length), unfolding(crate::specs::Calls::arguments))]
fn arguments(
    alloc: Global,
    scope: &Scope,
    params: &[TyId],
    args: &[Expr],
) -> Result<Checked<Items<TypedExpr>>, AllocError>
    ensures { IfOk result (λ l. l ≡ arguments scope.now (expressions args.now) params.now) }
{
    let list = gathered(alloc, scope, params, args)?;
    if args.len() == params.len() {
        Ok(list)
    } else {
        Ok(Err(broken(Rules::only(Rule::Callee), list)))
    }
}

#[tactic(auto, using(c_ast::proofs::Views::views), unfolding(crate::specs::Calls::size_form))]
fn size_form(scope: &Scope, e: &Expr) -> Checked<TyId>
    ensures { result ≡ size_form scope.now (expression e.now) }
{
    match e {
        Expr::SizeOf(name) => named(scope, name),
        Expr::Group(e) => size_form(scope, e.get()),
        Expr::Number(_)
        | Expr::Character(_)
        | Expr::Name(_)
        | Expr::Index(_, _)
        | Expr::Member(_, _, _)
        | Expr::Unary(_, _)
        | Expr::Cast(_, _)
        | Expr::Binary(_, _, _)
        | Expr::Conditional(_, _, _) => Err(Rules::only(Rule::BuiltIn)),
    }
}

fn size_at(scope: &Scope, args: &[Expr], index: usize) -> Checked<Option<TyId>>
    ensures { result ≡ elem_of scope.now (slice_get (expressions args.now) index) }
{
    match expr_at(args, index) {
        None => Err(Rules::only(Rule::BuiltIn)),
        Some(e) => match size_form(scope, e) {
            Err(rules) => Err(rules),
            Ok(ty) => Ok(Some(ty)),
        },
    }
}

#[tactic(auto, unfolding(crate::specs::Calls::elem_in))]
fn elem_in(scope: &Scope, position: Position, args: &[Expr], index: usize) -> Checked<Option<TyId>>
    ensures { result ≡ elem_in scope.now position (expressions args.now) index }
{
    match position {
        Position::RightSide => size_at(scope, args, index),
        Position::Statement | Position::Return => Err(Rules::only(Rule::BuiltIn)),
    }
}

#[tactic(auto, unfolding(crate::specs::Calls::as_statement))]
fn as_statement(position: Position) -> Checked<Option<TyId>>
    ensures { result ≡ as_statement position }
{
    match position {
        Position::Statement => Ok(None),
        Position::RightSide | Position::Return => Err(Rules::only(Rule::BuiltIn)),
    }
}

#[tactic(auto, unfolding(crate::specs::Calls::not_void))]
fn not_void(position: Position, answer: Option<TyId>) -> Checked<Option<TyId>>
    ensures { result ≡ not_void position answer }
{
    match position {
        Position::Statement => Ok(None),
        Position::RightSide | Position::Return => match answer {
            Some(_) => Ok(None),
            None => Err(Rules::only(Rule::VoidResult)),
        },
    }
}

/// The type of the elements that the call allocates, if any, where it may stand there.
#[tactic(auto, unfolding(crate::specs::Calls::stands))]
fn stands(
    scope: &Scope,
    position: Position,
    called: &Called,
    args: &[Expr],
) -> Checked<Option<TyId>>
    ensures { result ≡ stands scope.now position called.now (expressions args.now) }
{
    match called {
        Called::BuiltIn(BuiltIn::Malloc) => elem_in(scope, position, args, 0),
        Called::BuiltIn(BuiltIn::Calloc) => elem_in(scope, position, args, 1),
        Called::BuiltIn(BuiltIn::Free | BuiltIn::Panic) => as_statement(position),
        Called::BuiltIn(BuiltIn::Send) | Called::Function(_, _) | Called::Pointer(_, _) => {
            not_void(position, answer_of(&scope.types, called))
        }
    }
}

#[tactic(auto, unfolding(crate::specs::Calls::callee_node))]
fn callee_node(called: Called, site: u32) -> Callee
    ensures { result ≡ callee_node called site }
{
    match called {
        Called::Function(number, _) => Callee::Function(number),
        Called::Pointer(e, _) => Callee::Pointer(e.into_inner()),
        Called::BuiltIn(BuiltIn::Send) => Callee::Send,
        Called::BuiltIn(BuiltIn::Malloc) => Callee::Malloc(site),
        Called::BuiltIn(BuiltIn::Calloc) => Callee::Calloc(site),
        Called::BuiltIn(BuiltIn::Free) => Callee::Free,
        Called::BuiltIn(BuiltIn::Panic) => Callee::Panic,
    }
}

fn without_last(list: Items<TypedExpr>) -> Items<TypedExpr>
    ensures { result ≡ front list }
{
    let mut list = list;
    let _last = list.pop();
    list
}

#[tactic(auto, unfolding(crate::specs::Calls::kept))]
fn kept(elem: Option<TyId>, list: Items<TypedExpr>) -> Items<TypedExpr>
    ensures { result ≡ kept elem list }
{
    match elem {
        None => list,
        Some(_) => without_last(list),
    }
}

#[tactic(auto, unfolding(crate::specs::Calls::made_call))]
fn made_call(
    types: &Types,
    called: Called,
    site: u32,
    elem: Option<TyId>,
    list: Items<TypedExpr>,
) -> Invocation
    ensures { result ≡ made_call types.now called site elem list }
{
    let answer = answer_of(types, &called);
    let call = Call {
        callee: callee_node(called, site),
        args: kept(elem, list),
    };
    Invocation { call, answer, elem }
}

/// A call in a position, or the rules that it breaks. An allocation is at the site of the number `site`.
#[tactic(auto, unfolding(crate::specs::Calls::call))]
pub fn call(
    alloc: Global,
    scope: &Scope,
    position: Position,
    site: u32,
    callee: &Expr,
    args: &[Expr],
) -> Result<Checked<Invocation>, AllocError>
    ensures { IfOk result (λ c. c ≡ call scope.now position site (expression callee.now) (expressions args.now)) }
{
    let callee = denoted(alloc, scope, callee)?;
    match callee_of(alloc, &scope.types, callee)? {
        Err(rules) => Ok(Err(broken(rules, gathered(alloc, scope, &[], args)?))),
        Ok(called) => {
            let params = params_of(alloc, &scope.types, &called)?;
            let list = arguments(alloc, scope, params.as_slice(), args)?;
            let elem = stands(scope, position, &called, args);
            match both(list, elem) {
                Err(rules) => Ok(Err(rules)),
                Ok((list, elem)) => Ok(Ok(made_call(&scope.types, called, site, elem, list))),
            }
        }
    }
}

/// A call as a right side or return value for the type of this number, to which its result converts.
#[tactic(auto, unfolding(crate::specs::Calls::call_value))]
pub fn call_value(types: &Types, ty: TyId, made: Invocation) -> Checked<Invocation>
    ensures { result ≡ call_value types.now ty made }
{
    match made.answer {
        None => Err(Rules::only(Rule::VoidResult)),
        Some(answer) => {
            let from = Operand {
                ty: type_at(types, answer),
                is_null: false,
            };
            if converts(from, type_at(types, ty)) {
                Ok(made)
            } else {
                Err(Rules::only(Rule::Conversion))
            }
        }
    }
}
