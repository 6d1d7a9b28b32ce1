// The body of a function.

ghost use Rattle.std.specs.Prelude.{◌≡◌, IfOk};
ghost use Rattle.c_ast.specs.Trees.{parameters, statements};
ghost use Rattle.c_check_stmt.specs.Variables as variables;
ghost use Rattle.c_check_stmt.specs.Bodies as spec;

use crate::bodies::{Body, Judged};
use crate::state::{Frame, State};
use crate::statements::typed_statements;
use crate::variables::declare_params;
use c_ast::stmt::{Param, Stmt};
use c_check_scope::checked::{Checked, both};
use c_check_scope::names::Names;
use c_check_scope::rule::Rule;
use c_check_scope::rules::Rules;
use c_check_scope::scope::Scope;
use c_types::TyId;
use sqlite_items::Items;
use src_tree::stmt::TypedStmt;
use std::alloc::{AllocError, Global};

/// The parameters and locals that a function may have.
pub const GREATEST_LOCALS: usize = 256;

#[tactic(auto, unfolding(crate::specs::Bodies::few))]
fn few(scope: &Scope) -> Checked<usize>
    ensures { result ≡ spec.few scope.now }
{
    let count = scope.variables.len();
    if GREATEST_LOCALS < count {
        Err(Rules::only(Rule::TooManyLocals))
    } else {
        Ok(count)
    }
}

/// The scope without parameters and locals.
fn bare(alloc: Global, scope: Scope) -> Scope
    ensures { result ≡ variables.bare scope }
{
    Scope {
        types: scope.types,
        names: scope.names,
        meanings: scope.meanings,
        tags: scope.tags,
        locals: Names::new(alloc),
        variables: Items::new(alloc),
    }
}

#[tactic(auto, unfolding(crate::specs::Bodies::whole))]
fn whole(
    locals: Items<TyId>,
    sites: Items<TyId>,
    parts: Checked<(u32, Items<TypedStmt>)>,
    count: Checked<usize>,
) -> Checked<Body>
    ensures { result ≡ spec.whole locals sites parts count }
{
    match both(parts, count) {
        Err(rules) => Err(rules),
        Ok(((_, statements), _)) => Ok(Body {
            locals,
            sites,
            statements,
        }),
    }
}

fn judged(
    alloc: Global,
    state: State,
    params: Checked<u32>,
    list: Checked<Items<TypedStmt>>,
) -> Judged
    ensures scope { result.scope ≡ variables.bare state.scope }
    ensures body { result.body ≡ spec.made_body state params list }
{
    let count = few(&state.scope);
    let body = whole(state.locals, state.sites, both(params, list), count);
    let scope = bare(alloc, state.scope);
    Judged { scope, body }
}

/// The body of a function with this type of result, none for `void`, whose first allocation is at the site of the
/// number `first_site`. The scope, which is given back, is that in front of the parameters, with the function declared.
#[tactic(auto, using(crate::proofs::Outside::body_bare))]
pub fn body(
    alloc: Global,
    scope: Scope,
    result_ty: Option<TyId>,
    first_site: u32,
    params: &[Param],
    list: &[Stmt],
) -> Result<Judged, AllocError>
    ensures body { IfOk result (λ j. j.body ≡ spec.body scope result_ty first_site (parameters params.now) (statements list.now)) }
    ensures scope { IfOk result (λ j. j.scope ≡ variables.bare scope) }
{
    let mut scope = scope;
    let params = declare_params(alloc, &mut scope, params)?;
    let frame = Frame {
        result: result_ty,
        first_site,
    };
    let mut state = State {
        scope,
        locals: Items::new(alloc),
        sites: Items::new(alloc),
    };
    let list = typed_statements(alloc, frame, false, &mut state, list)?;
    Ok(judged(alloc, state, params, list))
}
