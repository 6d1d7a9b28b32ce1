// Prototypes and definitions of functions.

ghost use Rattle.std.specs.Prelude.{◌≡◌, ◌<◌, ◌^◌, IfOk, slice_get};
ghost use Rattle.c_ast.specs.Trees.{parameters, statements, declaration, declarations};
ghost use Rattle.c_check_stmt.specs.Bodies as bodies;
ghost use Rattle.c_check.specs.Functions as spec;

use crate::functions::{with_body, with_prototype};
use crate::headings::{GREATEST_COUNT, free_name, is_defined, next_of, result_if_any};
use crate::standing::{Functions, Standing, meaning_in};
use c_ast::decl::Decl;
use c_ast::stmt::{Param, Stmt};
use c_ast::types::TypeName;
use c_check_decl::records::name_number;
use c_check_expr::params::signature;
use c_check_expr::signatures::signature_number;
use c_check_scope::checked::{Checked, both};
use c_check_scope::numbers::as_number;
use c_check_scope::rule::Rule;
use c_check_scope::rules::Rules;
use c_check_scope::scope::{Meaning, Scope};
use c_check_stmt::bodies::Body;
use c_check_stmt::function::body;
use c_types::{Signature, TyId};
use lu_base::Name;
use std::alloc::{AllocError, Global};

/// What stands behind a function, and what its body is.
#[derive(Drop)]
struct Entered {
    standing: Standing,
    body: Checked<Body>,
}

/// What is needed to judge a function's body.
#[derive(Clone, Copy, Debug, PartialEq, Eq)]
struct Entry {
    /// The number of its name.
    name: u32,
    /// Its own number.
    function: u32,
    /// The type of its result, if any.
    answer: Option<TyId>,
    /// The number of its first site.
    first_site: u32,
}

fn inside(scope: Scope, name: u32, function: u32, heading: &Checked<Signature>) -> Scope
    ensures { result ≡ spec.inside_of scope name function heading.now }
{
    match heading {
        Err(_) => scope,
        Ok(signature) => {
            let number = signature_number(&scope.types, signature);
            meaning_in(scope, name, Meaning::Function(function, number))
        }
    }
}

/// A function with its parameters and statements.
fn enter(
    alloc: Global,
    standing: Standing,
    entry: Entry,
    heading: &Checked<Signature>,
    params: &[Param],
    text: &[Stmt],
) -> Result<Entered, AllocError>
    ensures standing { IfOk result (λ e. e.standing ≡ spec.entered_at standing entry.name entry.function heading.now) }
    ensures types { IfOk result (λ e. e.standing.scope.types ≡ standing.scope.types) }
    ensures body { IfOk result (λ e. e.body ≡ bodies.body (spec.inside_of standing.scope entry.name entry.function heading.now) entry.answer entry.first_site (parameters params.now) (statements text.now)) }
{
    let Standing {
        scope,
        globals,
        bytes,
        functions,
        defined,
        sites,
    } = standing;
    let scope = inside(scope, entry.name, entry.function, heading);
    let judged = body(alloc, scope, entry.answer, entry.first_site, params, text)?;
    Ok(Entered {
        standing: Standing {
            scope: judged.scope,
            globals,
            bytes,
            functions,
            defined,
            sites,
        },
        body: judged.body,
    })
}

/// What a prototype and a definition share: its heading, and what stands in its body.
fn entry_of(
    standing: &Standing,
    answer: &TypeName,
    name: &Name,
    function: u32,
    first_site: u32,
) -> Result<Entry, AllocError>
    ensures { IfOk result (λ e. e ≡ spec.entry_of standing.now answer.now name.now function first_site) }
{
    Ok(Entry {
        name: name_number(&standing.scope, name)?,
        function,
        answer: result_if_any(&standing.scope, answer),
        first_site,
    })
}

fn prototype_made(
    alloc: Global,
    behind: Standing,
    judged: Checked<((u32, u32), (Signature, (bool, Body)))>,
) -> Result<Checked<Standing>, AllocError>
    ensures standing { IfOk result (λ s. s ≡ spec.prototype_made behind judged) }
    ensures types { IfOk result (λ s. IfOk s (λ s. s.scope.types ≡ behind.scope.types)) }
{
    match judged {
        Err(rules) => Ok(Err(rules)),
        Ok(((name, _), (signature, _))) => {
            let made = with_prototype(alloc, behind, name, &signature)?;
            Ok(Ok(made))
        }
    }
}

#[tactic(auto, unfolding(crate::specs::Functions::judged_prototype))]
fn judged_prototype(
    free: Checked<(u32, u32)>,
    heading: Checked<Signature>,
    defined: Checked<bool>,
    params: Checked<Body>,
) -> Checked<((u32, u32), (Signature, (bool, Body)))>
    ensures { result ≡ spec.judged_prototype free heading defined params }
{
    both(free, both(heading, both(defined, params)))
}

/// A prototype with this entry and heading.
fn prototype_in(
    alloc: Global,
    standing: Standing,
    free: Checked<(u32, u32)>,
    defined: Checked<bool>,
    entry: Entry,
    heading: Checked<Signature>,
    params: &[Param],
) -> Result<Checked<Standing>, AllocError>
    ensures standing { IfOk result (λ s. s ≡ spec.prototype_in standing free defined entry heading (parameters params.now)) }
    ensures types { IfOk result (λ s. IfOk s (λ s. s.scope.types ≡ standing.scope.types)) }
{
    let entered = enter(alloc, standing, entry, &heading, params, &[])?;
    let judged = judged_prototype(free, heading, defined, entered.body);
    prototype_made(alloc, entered.standing, judged)
}

/// A prototype with this heading.
fn prototype_headed(
    alloc: Global,
    text: &[Decl],
    functions: &Functions,
    standing: Standing,
    answer: &TypeName,
    name: &Name,
    heading: Checked<Signature>,
    params: &[Param],
) -> Result<Checked<Standing>, AllocError>
    ensures standing { IfOk result (λ s. s ≡ spec.prototype_headed (declarations text.now) functions.now standing answer.now name.now heading (parameters params.now)) }
    ensures types { IfOk result (λ s. IfOk s (λ s. s.scope.types ≡ standing.scope.types)) }
{
    let count = as_number(standing.functions.len())?;
    let name_number = free_name(&standing.scope, name)?;
    let free = both(name_number, next_of(count as u64));
    let definitions = functions.definitions.as_slice();
    let defined = is_defined(alloc, &standing.scope, text, definitions, name, &heading)?;
    let entry = entry_of(&standing, answer, name, count, 0)?;
    prototype_in(alloc, standing, free, defined, entry, heading, params)
}

/// What stands after a prototype, or the rules that it breaks.
pub fn declared_prototype(
    alloc: Global,
    text: &[Decl],
    functions: &Functions,
    standing: Standing,
    answer: &TypeName,
    name: &Name,
    params: &[Param],
) -> Result<Checked<Standing>, AllocError>
    ensures standing { IfOk result (λ s. s ≡ spec.declared_prototype (declarations text.now) functions.now standing answer.now name.now (parameters params.now)) }
    ensures types { IfOk result (λ s. IfOk s (λ s. s.scope.types ≡ standing.scope.types)) }
{
    let heading = signature(alloc, &standing.scope, answer, params)?;
    prototype_headed(
        alloc, text, functions, standing, answer, name, heading, params,
    )
}

fn defined_at(standing: &Standing, function: u32) -> Checked<u32>
    ensures { result ≡ spec.defined_at standing.now function (slice_get standing.now.defined function) }
{
    match standing.defined.as_slice().get(function as usize) {
        None => Err(Rules::only(Rule::NameTaken)),
        Some(defined) => {
            if *defined {
                Err(Rules::only(Rule::NameTaken))
            } else {
                Ok(function)
            }
        }
    }
}

/// The number of a function that may be defined: one more, or one that has a prototype so far.
#[tactic(auto, unfolding(crate::specs::Functions::definable))]
fn definable(standing: &Standing, name: &Name) -> Checked<u32>
    ensures { result ≡ spec.definable standing.now name.now }
{
    match standing.scope.global_of(name) {
        None => next_of(standing.functions.len() as u64),
        Some(Meaning::Function(function, _)) => defined_at(standing, function),
        Some(_) => Err(Rules::only(Rule::NameTaken)),
    }
}

#[tactic(auto, unfolding(crate::specs::Functions::own_number))]
fn own_number(standing: &Standing, name: &Name) -> Result<u32, AllocError>
    ensures { IfOk result (λ n. n ≡ spec.own_number standing.now name.now) }
{
    match standing.scope.global_of(name) {
        Some(Meaning::Function(function, _)) => Ok(function),
        _ => as_number(standing.functions.len()),
    }
}

#[tactic(auto, unfolding(crate::specs::Functions::few_sites))]
fn few_sites(before: u64, body: Checked<Body>) -> Checked<Body>
    requires { before < 2 ^ 63 }
    ensures { result ≡ spec.few_sites before body }
{
    match body {
        Err(rules) => Err(rules),
        Ok(body) => {
            if GREATEST_COUNT < before + body.sites.len() as u64 {
                Err(Rules::only(Rule::TooMany))
            } else {
                Ok(body)
            }
        }
    }
}

fn is_numbered(standing: &Standing, function: u32) -> bool
    ensures { result ≡ spec.is_numbered standing.now function }
{
    (function as usize) < standing.functions.len()
}

/// A function is numbered at its first declaration.
fn numbered_if(
    alloc: Global,
    is_numbered: bool,
    standing: Standing,
    name: u32,
    signature: &Signature,
) -> Result<Standing, AllocError>
    ensures standing { IfOk result (λ s. s ≡ spec.numbered_if is_numbered standing name signature.now) }
    ensures types { IfOk result (λ s. s.scope.types ≡ standing.scope.types) }
{
    if is_numbered {
        Ok(standing)
    } else {
        with_prototype(alloc, standing, name, signature)
    }
}

fn definition(
    alloc: Global,
    standing: Standing,
    function: u32,
    name: u32,
    signature: &Signature,
    body: Body,
) -> Result<Standing, AllocError>
    ensures standing { IfOk result (λ s. s ≡ spec.definition standing function name signature.now body) }
    ensures types { IfOk result (λ s. s.scope.types ≡ standing.scope.types) }
{
    let is_numbered = is_numbered(&standing, function);
    let standing = numbered_if(alloc, is_numbered, standing, name, signature)?;
    with_body(alloc, standing, function, name, signature, body)
}

fn definition_made(
    alloc: Global,
    behind: Standing,
    name: u32,
    judged: Checked<(u32, (Signature, Body))>,
) -> Result<Checked<Standing>, AllocError>
    ensures standing { IfOk result (λ s. s ≡ spec.definition_made behind name judged) }
    ensures types { IfOk result (λ s. IfOk s (λ s. s.scope.types ≡ behind.scope.types)) }
{
    match judged {
        Err(rules) => Ok(Err(rules)),
        Ok((function, (signature, body))) => {
            let made = definition(alloc, behind, function, name, &signature, body)?;
            Ok(Ok(made))
        }
    }
}

/// A definition with this entry and heading, of a function that may be defined.
fn definition_in(
    alloc: Global,
    standing: Standing,
    function: Checked<u32>,
    entry: Entry,
    heading: Checked<Signature>,
    params: &[Param],
    text: &[Stmt],
) -> Result<Checked<Standing>, AllocError>
    ensures standing { IfOk result (λ s. s ≡ spec.definition_in standing function entry heading (parameters params.now) (statements text.now)) }
    ensures types { IfOk result (λ s. IfOk s (λ s. s.scope.types ≡ standing.scope.types)) }
{
    let entered = enter(alloc, standing, entry, &heading, params, text)?;
    let body = few_sites(entry.first_site as u64, entered.body);
    let judged = both(function, both(heading, body));
    definition_made(alloc, entered.standing, entry.name, judged)
}

/// A definition with this heading.
fn definition_headed(
    alloc: Global,
    standing: Standing,
    answer: &TypeName,
    name: &Name,
    heading: Checked<Signature>,
    params: &[Param],
    text: &[Stmt],
) -> Result<Checked<Standing>, AllocError>
    ensures standing { IfOk result (λ s. s ≡ spec.definition_headed standing answer.now name.now heading (parameters params.now) (statements text.now)) }
    ensures types { IfOk result (λ s. IfOk s (λ s. s.scope.types ≡ standing.scope.types)) }
{
    let function = definable(&standing, name);
    let first_site = as_number(standing.sites.len())?;
    let number = own_number(&standing, name)?;
    let entry = entry_of(&standing, answer, name, number, first_site)?;
    definition_in(alloc, standing, function, entry, heading, params, text)
}

/// What stands after the definition of a function, or the rules that it breaks.
pub fn declared_definition(
    alloc: Global,
    standing: Standing,
    answer: &TypeName,
    name: &Name,
    params: &[Param],
    text: &[Stmt],
) -> Result<Checked<Standing>, AllocError>
    ensures standing { IfOk result (λ s. s ≡ spec.declared_definition standing answer.now name.now (parameters params.now) (statements text.now)) }
    ensures types { IfOk result (λ s. IfOk s (λ s. s.scope.types ≡ standing.scope.types)) }
{
    let heading = signature(alloc, &standing.scope, answer, params)?;
    definition_headed(alloc, standing, answer, name, heading, params, text)
}
