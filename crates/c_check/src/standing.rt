// What stands after the declarations of a text so far.

ghost use Rattle.std.specs.Prelude.{◌≡◌, IfOk};
ghost use Rattle.c_check.specs.Standings as spec;

use c_check_decl::globals::DeclaredGlobal;
use c_check_scope::numbers::as_number;
use c_check_scope::scope::{Meaning, Scope, set_meaning};
use c_check_table::predeclared::message_type;
use c_types::{TyId, TypeTable};
use sqlite_items::Items;
use src_tree::program::{Function, Global as Variable, Init, Site};
use std::alloc::{AllocError, Global};

/// The functions of a text, by the numbers of their names.
#[derive(Drop)]
pub struct Functions {
    /// The place in the text of the first definition.
    pub definitions: Items<Option<u32>>,
    /// The number of the signature of the first prototype or definition, unless it breaks a rule.
    pub signatures: Items<Option<u32>>,
}

/// What stands after the declarations of a text so far.
#[derive(Drop)]
pub struct Standing {
    pub scope: Scope,
    pub globals: Items<Variable>,
    /// The bytes of all globals.
    pub bytes: u64,
    /// By first declaration. One that has no definition so far has no locals and no body.
    pub functions: Items<Function>,
    /// Whether each function has its definition.
    pub defined: Items<bool>,
    pub sites: Items<Site>,
}

fn message_global(name: u32, ty: TyId) -> Variable
    ensures { result ≡ spec.message_global name ty }
{
    Variable {
        name,
        ty,
        init: Init::Zero,
    }
}

/// What stands before the text, with the globals `m_in` and `m_out`.
#[tactic(auto, unfolding(crate::specs::Standings::start))]
pub fn start(alloc: Global, table: &TypeTable, scope: Scope) -> Result<Standing, AllocError>
    requires { table.now ≡ scope.types }
    ensures standing { IfOk result (λ s. s ≡ spec.start scope) }
    ensures types { IfOk result (λ s. s.scope.types ≡ scope.types) }
{
    let ty = message_type(&scope.types);
    let size = table.size_of(ty) as u64;
    let mut globals = Items::new(alloc);
    globals.push(message_global(4, ty))?;
    globals.push(message_global(5, ty))?;
    Ok(Standing {
        scope,
        globals,
        bytes: size + size,
        functions: Items::new(alloc),
        defined: Items::new(alloc),
        sites: Items::new(alloc),
    })
}

/// The name of this number means this from here on.
pub fn meaning_in(scope: Scope, name: u32, meaning: Meaning) -> Scope
    ensures scope { result ≡ spec.meaning_in scope name meaning }
    ensures types { result.types ≡ scope.types }
{
    let mut scope = scope;
    set_meaning(&mut scope.meanings, name as usize, meaning);
    scope
}

/// One more global of that name.
#[tactic(auto, unfolding(crate::specs::Standings::with_global))]
pub fn with_global(
    standing: Standing,
    name: u32,
    bytes: u64,
    made: DeclaredGlobal,
) -> Result<Standing, AllocError>
    ensures standing { IfOk result (λ s. s ≡ spec.with_global standing name bytes made) }
    ensures types { IfOk result (λ s. s.scope.types ≡ standing.scope.types) }
{
    let number = as_number(standing.globals.len())?;
    let ty = made.ty;
    let mut globals = standing.globals;
    globals.push(Variable {
        name,
        ty,
        init: made.init,
    })?;
    Ok(Standing {
        scope: meaning_in(standing.scope, name, Meaning::Global(number, ty)),
        globals,
        bytes,
        functions: standing.functions,
        defined: standing.defined,
        sites: standing.sites,
    })
}
