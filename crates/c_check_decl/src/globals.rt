// Globals as they are declared.

ghost use Rattle.std.specs.Prelude.{◌≡◌, IfOk};
ghost use Rattle.c_ast.specs.Trees.{object, initializer_if_any};
ghost use Rattle.c_check_decl.specs.Globals as spec;

use crate::initialisers::{start, unfit};
use crate::objects::{object_size, small_type};
use c_ast::decl::{Init as Initializer, Named};
use c_check_expr::objects::{ObjectType, object_number};
use c_check_scope::checked::Checked;
use c_check_scope::rules::Rules;
use c_check_scope::scope::Scope;
use c_types::TyId;
use sqlite_items::Boxed;
use src_tree::program::{Init, Program};
use std::alloc::{AllocError, Global};

/// A global that keeps the rules.
#[derive(Drop)]
pub struct DeclaredGlobal {
    /// The number of its type; 0 where the table doesn't have it.
    pub ty: TyId,
    /// Its bytes.
    pub size: u64,
    pub init: Init,
}

fn started(
    alloc: Global,
    scope: &Scope,
    types: &Program,
    functions: &[Option<u32>],
    ty: TyId,
    init: &Option<Boxed<Initializer>>,
) -> Result<Checked<Init>, AllocError>
    requires { types.now ≡ spec.types_alone scope.now.types }
    ensures { IfOk result (λ i. i ≡ spec.started scope.now functions.now ty (initializer_if_any init.now)) }
{
    match init {
        None => Ok(Ok(Init::Zero)),
        Some(init) => start(alloc, scope, types, functions, Some(ty), init.get()),
    }
}

fn unfit_if_any(
    alloc: Global,
    scope: &Scope,
    rules: Rules,
    init: &Option<Boxed<Initializer>>,
) -> Result<Rules, AllocError>
    ensures { IfOk result (λ r. r ≡ spec.unfit_if_any scope.now rules (initializer_if_any init.now)) }
{
    match init {
        None => Ok(rules),
        Some(init) => unfit(alloc, scope, rules, init.get()),
    }
}

#[tactic(auto, unfolding(crate::specs::Globals::declared_global))]
fn declared_global(scope: &Scope, types: &Program, ty: ObjectType, init: Init) -> DeclaredGlobal
    requires { types.now ≡ spec.types_alone scope.now.types }
    ensures { result ≡ spec.declared_global scope.now.types ty init }
{
    DeclaredGlobal {
        ty: object_number(&scope.types, ty),
        size: object_size(&types.types, ty),
        init,
    }
}

#[tactic(auto, unfolding(crate::specs::Globals::typed_global))]
fn typed_global(
    alloc: Global,
    scope: &Scope,
    types: &Program,
    functions: &[Option<u32>],
    ty: Checked<ObjectType>,
    init: &Option<Boxed<Initializer>>,
) -> Result<Checked<DeclaredGlobal>, AllocError>
    requires { types.now ≡ spec.types_alone scope.now.types }
    ensures { IfOk result (λ g. g ≡ spec.typed_global scope.now functions.now ty (initializer_if_any init.now)) }
{
    match ty {
        Err(rules) => Ok(Err(unfit_if_any(alloc, scope, rules, init)?)),
        Ok(ty) => {
            let number = object_number(&scope.types, ty);
            match started(alloc, scope, types, functions, number, init)? {
                Err(rules) => Ok(Err(rules)),
                Ok(init) => Ok(Ok(declared_global(scope, types, ty, init))),
            }
        }
    }
}

/// A global with its type, size and initialiser, or the rules that it breaks. `types` has the types of the
/// scope alone, and `functions` the signatures of all functions of the text by the numbers of their names: where a
/// function pointer begins with one that is declared only later, its name isn't declared.
#[tactic(auto, unfolding(crate::specs::Globals::global))]
pub fn global(
    alloc: Global,
    scope: &Scope,
    types: &Program,
    functions: &[Option<u32>],
    named: &Named,
    init: &Option<Boxed<Initializer>>,
) -> Result<Checked<DeclaredGlobal>, AllocError>
    requires { types.now ≡ spec.types_alone scope.now.types }
    ensures { IfOk result (λ g. g ≡ spec.global scope.now functions.now (object named.now) (initializer_if_any init.now)) }
{
    let ty = small_type(alloc, scope, &types.types, named)?;
    typed_global(alloc, scope, types, functions, ty, init)
}
