// Names and headings of functions, as declarations ask for them.

ghost use Rattle.std.specs.Prelude.{◌≡◌, IfOk, slice_get};
ghost use Rattle.std.specs.Option.{option_map};
ghost use Rattle.c_ast.specs.Trees.{declaration, declarations};
ghost use Rattle.c_check.specs.Headings as spec;

use c_ast::decl::Decl;
use c_ast::types::TypeName;
use c_check_decl::records::name_number;
use c_check_expr::params::{result_type, signature};
use c_check_expr::signatures::{same_signature, signature_number};
use c_check_scope::checked::Checked;
use c_check_scope::rule::Rule;
use c_check_scope::rules::Rules;
use c_check_scope::scope::Scope;
use c_check_scope::types::Types;
use c_types::{Signature, TyId};
use lu_base::Name;
use sqlite_items::{Items, at};
use std::alloc::{AllocError, Global};

/// The structs, unions, globals, functions and sites that a program may have.
pub const GREATEST_COUNT: u64 = 4_096;

/// The number of a name that no global, function or built-in has so far.
#[tactic(auto, unfolding(crate::specs::Headings::free_name))]
pub fn free_name(scope: &Scope, name: &Name) -> Result<Checked<u32>, AllocError>
    ensures { IfOk result (λ number. number ≡ spec.free_name scope.now name.now) }
{
    let number = name_number(scope, name)?;
    match scope.global_of(name) {
        None => Ok(Ok(number)),
        Some(_) => Ok(Err(Rules::only(Rule::NameTaken))),
    }
}

/// The next number, where there are so many so far and at most 4,096 may be.
#[tactic(auto, unfolding(crate::specs::Headings::next_of))]
pub fn next_of(count: u64) -> Checked<u32>
    ensures { result ≡ spec.next_of count }
{
    if count < GREATEST_COUNT {
        Ok(count as u32)
    } else {
        Err(Rules::only(Rule::TooMany))
    }
}

fn decl_at(text: &[Decl], place: u32) -> Option<&Decl>
    ensures { slice_get (declarations text.now) place ≡ option_map (λ d. declaration d.now) result }
{
    at(text, place as usize)
}

/// The result and parameters of the function that is declared at a place of the text.
fn heading_at(
    alloc: Global,
    scope: &Scope,
    text: &[Decl],
    place: u32,
) -> Result<Option<Checked<Signature>>, AllocError>
    ensures { IfOk result (λ g. g ≡ spec.heading_in scope.now (slice_get (declarations text.now) place)) }
{
    match decl_at(text, place) {
        Some(Decl::Prototype(answer, _, params)) => {
            Ok(Some(signature(alloc, scope, answer, params.as_slice())?))
        }
        Some(Decl::Function(answer, _, params, _)) => {
            Ok(Some(signature(alloc, scope, answer, params.as_slice())?))
        }
        Some(Decl::Record(_, _, _)) => Ok(None),
        Some(Decl::Global(_, _)) => Ok(None),
        None => Ok(None),
    }
}

fn entry_of(scope: &Scope, entries: &[Option<u32>], name: &Name) -> Option<u32>
    ensures { result ≡ spec.entry_of scope.now entries.now name.now }
{
    match scope.names.number_of(name) {
        None => None,
        Some(number) => match entries.get(number) {
            None => None,
            Some(entry) => *entry,
        },
    }
}

fn heading_of(
    alloc: Global,
    scope: &Scope,
    text: &[Decl],
    places: &[Option<u32>],
    name: &Name,
) -> Result<Option<Checked<Signature>>, AllocError>
    ensures { IfOk result (λ g. g ≡ spec.heading_of scope.now (declarations text.now) places.now name.now) }
{
    match entry_of(scope, places, name) {
        None => Ok(None),
        Some(place) => heading_at(alloc, scope, text, place),
    }
}

fn agree(a: &Checked<Signature>, b: &Checked<Signature>) -> bool
    ensures { result ≡ spec.agree a.now b.now }
{
    match a {
        Err(_) => true,
        Ok(a) => match b {
            Err(_) => false,
            Ok(b) => same_signature(a, b),
        },
    }
}

/// Whether a prototype has a definition in the text, of the same type.
#[tactic(auto, unfolding(crate::specs::Headings::is_defined))]
pub fn is_defined(
    alloc: Global,
    scope: &Scope,
    text: &[Decl],
    definitions: &[Option<u32>],
    name: &Name,
    heading: &Checked<Signature>,
) -> Result<Checked<bool>, AllocError>
    ensures { IfOk result (λ d. d ≡ spec.is_defined scope.now (declarations text.now) definitions.now name.now heading.now) }
{
    match heading_of(alloc, scope, text, definitions, name)? {
        None => Ok(Err(Rules::only(Rule::Undefined))),
        Some(definition) => {
            if agree(heading, &definition) {
                Ok(Ok(true))
            } else {
                Ok(Err(Rules::only(Rule::Undefined)))
            }
        }
    }
}

/// The type of a function's result; none for `void`, or where it breaks a rule.
#[tactic(auto, unfolding(crate::specs::Headings::result_if_any))]
pub fn result_if_any(scope: &Scope, answer: &TypeName) -> Option<TyId>
    ensures { result ≡ spec.result_if_any scope.now answer.now }
{
    match result_type(scope, answer) {
        Ok(ty) => ty,
        Err(_) => None,
    }
}

fn number_of_heading(types: &Types, heading: Option<Checked<Signature>>) -> Option<u32>
    ensures { result ≡ spec.number_of_heading types.now heading }
{
    match heading {
        Some(Ok(signature)) => Some(signature_number(types, &signature)),
        Some(Err(_)) => None,
        None => None,
    }
}

fn signature_at(
    alloc: Global,
    scope: &Scope,
    text: &[Decl],
    place: Option<u32>,
) -> Result<Option<u32>, AllocError>
    ensures { IfOk result (λ g. g ≡ spec.signature_at scope.now (declarations text.now) place) }
{
    match place {
        None => Ok(None),
        Some(place) => {
            let heading = heading_at(alloc, scope, text, place)?;
            Ok(number_of_heading(&scope.types, heading))
        }
    }
}

/// The signatures of the functions of a text, by the numbers of their names.
pub fn signatures(
    alloc: Global,
    scope: &Scope,
    text: &[Decl],
    places: &[Option<u32>],
) -> Result<Items<Option<u32>>, AllocError>
    ensures { IfOk result (λ all. all ≡ spec.signatures scope.now (declarations text.now) places.now) }
{
    let mut all = Items::new(alloc);
    for place in places {
        all.push(signature_at(alloc, scope, text, *place)?)?;
    }
    Ok(all)
}
