// Initialisers of globals.

ghost use Rattle.std.specs.Prelude.{◌≡◌, IfOk, [], Some, Ok};
ghost use Rattle.c_ast.specs.Trees.{expression, initializer, initializers};
ghost use Rattle.src_meaning.specs.ValidInitialiser as valid;
ghost use Rattle.c_check_scope.specs.Rules as checks;
ghost use Rattle.c_check_expr.specs.Typing.{typed};
ghost use Rattle.c_check_decl.specs.Globals as spec;

use crate::scalars::{single, text};
use c_ast::decl::Init as Initializer;
use c_ast::expr::Expr;
use c_check_expr::typing::denoted;
use c_check_expr::values::valued;
use c_check_scope::checked::{Checked, both, broken};
use c_check_scope::rule::Rule;
use c_check_scope::rules::Rules;
use c_check_scope::scope::Scope;
use c_types::{Parts, Ty, TyId};
use sqlite_items::Items;
use src_tree::program::{Init, Program};
use std::alloc::{AllocError, Global};

fn unfit_value(alloc: Global, scope: &Scope, rules: Rules, e: &Expr) -> Result<Rules, AllocError>
    ensures { IfOk result (λ r. r ≡ checks.broken rules (typed scope.now (expression e.now))) }
{
    let e = denoted(alloc, scope, e)?;
    Ok(broken(rules, valued(alloc, &scope.types, e)?))
}

/// These broken rules and those that the expressions of an initialiser break by themselves.
#[cycle(unfit)]
#[tactic(auto, using(c_ast::proofs::Views::views))]
pub fn unfit(
    alloc: Global,
    scope: &Scope,
    rules: Rules,
    init: &Initializer,
) -> Result<Rules, AllocError>
    ensures { IfOk result (λ r. r ≡ spec.unfit scope.now rules (initializer init.now)) }
{
    match init {
        Initializer::Value(e) => unfit_value(alloc, scope, rules, e.get()),
        Initializer::Text(_) => Ok(rules),
        Initializer::List(inits, _) => unfit_all(alloc, scope, rules, inits.as_slice()),
    }
}

#[cycle(unfit)]
fn unfit_all(
    alloc: Global,
    scope: &Scope,
    rules: Rules,
    inits: &[Initializer],
) -> Result<Rules, AllocError>
    ensures { IfOk result (λ r. r ≡ spec.unfit_all scope.now rules (initializers inits.now)) }
{
    let mut all = rules;
    for init in inits {
        all = unfit(alloc, scope, all, init)?;
    }
    Ok(all)
}

/// The type of element k of an array, or of field k of a struct.
fn item_type(parts: &Parts, ty: TyId, k: usize) -> Option<TyId>
    ensures { result ≡ valid.item_type parts.now ty k }
{
    match parts.find_type(ty) {
        Some(Ty::Array(element, length)) => {
            if k < length as usize {
                Some(element)
            } else {
                None
            }
        }
        Some(Ty::Struct(tag)) => match parts.fields_of(tag).get(k) {
            None => None,
            Some(field) => Some(field.ty),
        },
        _ => None,
    }
}

#[tactic(auto, unfolding(crate::specs::Globals::one_more))]
fn one_more(
    done: Checked<Items<Init>>,
    init: Checked<Init>,
) -> Result<Checked<Items<Init>>, AllocError>
    ensures { IfOk result (λ inits. inits ≡ spec.one_more done init) }
{
    match both(done, init) {
        Err(rules) => Ok(Err(rules)),
        Ok((mut inits, init)) => {
            inits.push(init)?;
            Ok(Ok(inits))
        }
    }
}

#[tactic(auto, unfolding(crate::specs::Globals::braced))]
fn braced(inits: Checked<Items<Init>>) -> Checked<Init>
    ensures { result ≡ spec.braced inits }
{
    match inits {
        Err(rules) => Err(rules),
        Ok(inits) => {
            if inits.is_empty() {
                Err(Rules::only(Rule::Initialiser))
            } else {
                Ok(Init::List(inits))
            }
        }
    }
}

/// An initialiser of the type of this number, or of no type, where nothing fits.
#[cycle(start)]
pub fn start(
    alloc: Global,
    scope: &Scope,
    types: &Program,
    functions: &[Option<u32>],
    ty: Option<TyId>,
    init: &Initializer,
) -> Result<Checked<Init>, AllocError>
    requires { types.now ≡ spec.types_alone scope.now.types }
    ensures { IfOk result (λ i. i ≡ spec.start scope.now functions.now ty (initializer init.now)) }
{
    match ty {
        None => Ok(Err(unfit(alloc, scope, Rules::only(Rule::Initialiser), init)?)),
        Some(ty) => start_of_type(alloc, scope, types, functions, ty, init),
    }
}

#[cycle(start)]
#[tactic(auto, using(c_ast::proofs::Views::views))]
fn start_of_type(
    alloc: Global,
    scope: &Scope,
    types: &Program,
    functions: &[Option<u32>],
    ty: TyId,
    init: &Initializer,
) -> Result<Checked<Init>, AllocError>
    requires { types.now ≡ spec.types_alone scope.now.types }
    ensures { IfOk result (λ i. i ≡ spec.start scope.now functions.now (Some ty) (initializer init.now)) }
{
    match init {
        Initializer::Value(e) => single(alloc, scope, types, functions, ty, e.get()),
        Initializer::Text(bytes) => text(alloc, scope.types.parts(), ty, bytes),
        Initializer::List(inits, _) => {
            let inits = starts(alloc, scope, types, functions, ty, inits.as_slice())?;
            Ok(braced(inits))
        }
    }
}

/// Initialisers of the elements of an array or the fields of a struct, from the first on.
#[cycle(start)]
fn starts(
    alloc: Global,
    scope: &Scope,
    types: &Program,
    functions: &[Option<u32>],
    ty: TyId,
    inits: &[Initializer],
) -> Result<Checked<Items<Init>>, AllocError>
    requires { types.now ≡ spec.types_alone scope.now.types }
    ensures { IfOk result (λ is. is ≡ spec.starts scope.now functions.now ty 0 (Ok []) (initializers inits.now)) }
{
    let mut done: Checked<Items<Init>> = Ok(Items::new(alloc));
    let mut k = 0;
    for init in inits {
        let ty = item_type(scope.types.parts(), ty, k);
        let next = start(alloc, scope, types, functions, ty, init)?;
        done = one_more(done, next)?;
        k += 1;
    }
    Ok(done)
}
