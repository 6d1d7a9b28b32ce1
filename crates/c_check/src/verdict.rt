// The first declaration of a text that breaks a rule.

ghost use Rattle.std.specs.Prelude.{◌≡◌, IfOk};
ghost use Rattle.c_ast.specs.Trees.{declarations};
ghost use Rattle.c_check_decl.specs.Globals.{types_alone};
ghost use Rattle.c_check.specs.Verdict as spec;

use crate::declaration::declared;
use crate::standing::{Functions, Standing};
use c_ast::decl::Decl;
use c_check_scope::rule::Rule;
use c_check_scope::rules::Rules;
use c_check_scope::scope::Meaning;
use lu_base::Name;
use sqlite_items::at;
use src_tree::program::{Function, Program};
use std::alloc::{AllocError, Global};

/// A declaration that breaks a rule.
#[derive(Clone, Copy, Debug, PartialEq, Eq)]
pub struct Broken {
    /// Its number in the text, counted from 1. A function that each program has and the text hasn't is named at the
    /// number of declarations plus 1.
    pub decl: usize,
    /// The rules that it breaks.
    pub rules: Rules,
}

fn is_handler(function: &Function) -> bool
    ensures { result ≡ spec.is_handler function.now }
{
    match function.ret {
        Some(_) => false,
        None => match function.params.as_slice().first() {
            None => true,
            Some(_) => false,
        },
    }
}

#[tactic(auto, unfolding(crate::specs::Verdict::has_handler))]
fn has_handler(standing: &Standing, name: &Name) -> bool
    ensures { result ≡ spec.has_handler standing.now name.now }
{
    match standing.scope.global_of(name) {
        Some(Meaning::Function(function, _)) => {
            match at(standing.functions.as_slice(), function as usize) {
                None => false,
                Some(function) => is_handler(function),
            }
        }
        _ => false,
    }
}

fn has_handlers(alloc: Global, standing: &Standing) -> Result<bool, AllocError>
    ensures { IfOk result (λ has. has ≡ spec.has_handlers standing.now) }
{
    let init = Name::new(String::from_str(alloc, "init")?);
    let on_message = Name::new(String::from_str(alloc, "on_message")?);
    Ok(has_handler(standing, &init) && has_handler(standing, &on_message))
}

#[tactic(auto, unfolding(crate::specs::Verdict::ended))]
fn ended(
    alloc: Global,
    number: usize,
    standing: Standing,
) -> Result<Result<Standing, Broken>, AllocError>
    ensures standing { IfOk result (λ s. s ≡ spec.ended number standing) }
    ensures types { IfOk result (λ s. IfOk s (λ s. s.scope.types ≡ standing.scope.types)) }
{
    if has_handlers(alloc, &standing)? {
        Ok(Ok(standing))
    } else {
        Ok(Err(Broken {
            decl: number,
            rules: Rules::only(Rule::EntryPoint),
        }))
    }
}

/// What stands after a text, or its first declaration that breaks a rule.
pub fn judged(
    alloc: Global,
    types: &Program,
    functions: &Functions,
    standing: Standing,
    text: &[Decl],
) -> Result<Result<Standing, Broken>, AllocError>
    requires { types.now ≡ types_alone standing.scope.types }
    ensures standing { IfOk result (λ s. s ≡ spec.judged (declarations text.now) functions.now 1 standing (declarations text.now)) }
    ensures types { IfOk result (λ s. IfOk s (λ s. s.scope.types ≡ standing.scope.types)) }
{
    let mut so_far = standing;
    let mut number = 1usize;
    for decl in text {
        match declared(alloc, types, text, functions, so_far, decl)? {
            Err(rules) => return Ok(Err(Broken {
                decl: number,
                rules,
            })),
            Ok(next) => so_far = next,
        }
        let Some(following) = number.checked_add(1) else {
            return Err(AllocError);
        };
        number = following;
    }
    ended(alloc, number, so_far)
}
