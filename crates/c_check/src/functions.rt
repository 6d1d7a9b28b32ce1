// Functions as they are declared.

ghost use Rattle.std.specs.Prelude.{◌≡◌, IfOk, OnOk, slice_set, true};
ghost use Rattle.c_check.specs.Standings as spec;

use crate::standing::Standing;
use c_check_scope::numbers::as_number;
use c_check_stmt::bodies::Body;
use c_types::{Signature, TyId};
use sqlite_items::Items;
use src_tree::program::{Function, Site};
use src_tree::stmt::TypedStmt;
use std::alloc::{AllocError, Global};

/// A function with these locals and statements.
fn with_text(
    alloc: Global,
    name: u32,
    signature: &Signature,
    locals: Items<TyId>,
    body: Items<TypedStmt>,
) -> Result<Function, AllocError>
    ensures { IfOk result (λ f. f ≡ spec.with_text name signature.now locals body) }
{
    let params = Items::from_slice(alloc, signature.params.as_slice())?;
    Ok(Function {
        name,
        params,
        ret: signature.result,
        locals,
        body,
    })
}

fn heading_only(alloc: Global, name: u32, signature: &Signature) -> Result<Function, AllocError>
    ensures { IfOk result (λ f. f ≡ spec.heading_only name signature.now) }
{
    with_text(alloc, name, signature, Items::new(alloc), Items::new(alloc))
}

/// One more function, which has no body so far.
#[tactic(auto, unfolding(crate::specs::Standings::with_prototype))]
pub fn with_prototype(
    alloc: Global,
    standing: Standing,
    name: u32,
    signature: &Signature,
) -> Result<Standing, AllocError>
    ensures standing { IfOk result (λ s. s ≡ spec.with_prototype standing name signature.now) }
    ensures types { IfOk result (λ s. s.scope.types ≡ standing.scope.types) }
{
    let heading = heading_only(alloc, name, signature)?;
    let mut functions = standing.functions;
    functions.push(heading)?;
    let mut defined = standing.defined;
    defined.push(false)?;
    Ok(Standing {
        scope: standing.scope,
        globals: standing.globals,
        bytes: standing.bytes,
        functions,
        defined,
        sites: standing.sites,
    })
}

fn add_site(
    sites: &mut Items<Site>,
    function: u32,
    ordinal: usize,
    elem: TyId,
) -> Result<(), AllocError>
    ensures { OnOk result (sites.new ≡ spec.and_site sites.old function ordinal elem) }
{
    let ordinal = as_number(ordinal)?;
    sites.push(Site {
        function,
        ordinal,
        elem,
    })
}

/// The sites of a function behind those before.
fn with_sites(sites: Items<Site>, function: u32, elems: &[TyId]) -> Result<Items<Site>, AllocError>
    ensures { IfOk result (λ all. all ≡ spec.with_sites sites function 0 elems.now) }
{
    let mut all = sites;
    for ordinal in 0..elems.len() {
        add_site(&mut all, function, ordinal, elems[ordinal])?;
    }
    Ok(all)
}

fn set_function(functions: Items<Function>, number: u32, function: Function) -> Items<Function>
    ensures { result ≡ slice_set functions number function }
{
    let mut functions = functions;
    if (number as usize) < functions.len() {
        functions.set(number as usize, function);
    }
    functions
}

fn set_defined(defined: Items<bool>, number: u32) -> Items<bool>
    ensures { result ≡ slice_set defined number true }
{
    let mut defined = defined;
    if (number as usize) < defined.len() {
        defined.set(number as usize, true);
    }
    defined
}

/// The function of that number has this body.
#[tactic(auto, unfolding(crate::specs::Standings::with_body))]
pub fn with_body(
    alloc: Global,
    standing: Standing,
    number: u32,
    name: u32,
    signature: &Signature,
    body: Body,
) -> Result<Standing, AllocError>
    ensures standing { IfOk result (λ s. s ≡ spec.with_body standing number name signature.now body) }
    ensures types { IfOk result (λ s. s.scope.types ≡ standing.scope.types) }
{
    let sites = with_sites(standing.sites, number, body.sites.as_slice())?;
    let function = with_text(alloc, name, signature, body.locals, body.statements)?;
    Ok(Standing {
        scope: standing.scope,
        globals: standing.globals,
        bytes: standing.bytes,
        functions: set_function(standing.functions, number, function),
        defined: set_defined(standing.defined, number),
        sites,
    })
}
