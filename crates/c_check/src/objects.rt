// Structs, unions and globals of a text.

ghost use Rattle.std.specs.Prelude.{◌≡◌, IfOk};
ghost use Rattle.c_ast.specs.Trees.{object, objects, initializer_if_any};
ghost use Rattle.c_check_decl.specs.Globals.{types_alone};
ghost use Rattle.c_check.specs.Objects as spec;

use crate::headings::{free_name, next_of};
use crate::standing::{Functions, Standing, with_global};
use c_ast::decl::{Init, Named};
use c_ast::types::TagKind;
use c_check_decl::globals::{DeclaredGlobal, global};
use c_check_decl::records::record_fields;
use c_check_scope::checked::{Checked, both};
use c_check_scope::names::object_name;
use c_check_scope::rule::Rule;
use c_check_scope::rules::Rules;
use c_check_scope::scope::Scope;
use c_check_table::scoping::declare_tag;
use c_types::GREATEST;
use lu_base::Name;
use sqlite_items::Boxed;
use src_tree::program::Program;
use std::alloc::{AllocError, Global};

#[tactic(auto, unfolding(crate::specs::Objects::new_tag))]
fn new_tag(scope: &Scope, name: &Name) -> Checked<u32>
    ensures { result ≡ spec.new_tag scope.now name.now }
{
    match scope.tag_of(name) {
        None => Err(Rules::only(Rule::NameTaken)),
        Some(tag) => {
            if tag.is_declared {
                Err(Rules::only(Rule::NameTaken))
            } else {
                next_of(tag.number as u64)
            }
        }
    }
}

#[tactic(auto, unfolding(crate::specs::Objects::with_tag))]
fn with_tag(standing: Standing, name: &Name) -> Standing
    ensures standing { result ≡ spec.with_tag standing name.now }
    ensures types { result.scope.types ≡ standing.scope.types }
{
    let mut standing = standing;
    declare_tag(&mut standing.scope, name);
    standing
}

/// What stands after the declaration of a struct or union, or the rules that it breaks.
#[tactic(auto, unfolding(crate::specs::Objects::declared_record))]
pub fn declared_record(
    alloc: Global,
    types: &Program,
    standing: Standing,
    kind: TagKind,
    name: &Name,
    fields: &[Named],
) -> Result<Checked<Standing>, AllocError>
    requires { types.now ≡ types_alone standing.scope.types }
    ensures standing { IfOk result (λ s. s ≡ spec.declared_record standing kind name.now (objects fields.now)) }
    ensures types { IfOk result (λ s. IfOk s (λ s. s.scope.types ≡ standing.scope.types)) }
{
    let fields = record_fields(alloc, &standing.scope, &types.types, kind, fields)?;
    match both(new_tag(&standing.scope, name), fields) {
        Err(rules) => Ok(Err(rules)),
        Ok(_) => Ok(Ok(with_tag(standing, name))),
    }
}

#[tactic(auto, unfolding(crate::specs::Objects::sum_with))]
fn sum_with(bytes: u64, made: &Checked<DeclaredGlobal>) -> Result<Checked<u64>, AllocError>
    ensures { IfOk result (λ sum. sum ≡ spec.sum_with bytes made.now) }
{
    match made {
        Err(rules) => Ok(Err(*rules)),
        Ok(made) => match bytes.checked_add(made.size) {
            None => Err(AllocError),
            Some(sum) => {
                if (GREATEST as u64) < sum {
                    Ok(Err(Rules::only(Rule::Size)))
                } else {
                    Ok(Ok(sum))
                }
            }
        },
    }
}

#[tactic(auto, unfolding(crate::specs::Objects::summed))]
fn summed(
    bytes: u64,
    made: Checked<DeclaredGlobal>,
) -> Result<Checked<(u64, DeclaredGlobal)>, AllocError>
    ensures { IfOk result (λ sum. sum ≡ spec.summed bytes made) }
{
    let sum = sum_with(bytes, &made)?;
    Ok(both(sum, made))
}

/// The number of a global's name, how many globals there are, their bytes with this one, and what it is.
#[tactic(auto, unfolding(crate::specs::Objects::judged_global))]
fn judged_global(
    alloc: Global,
    types: &Program,
    functions: &Functions,
    standing: &Standing,
    named: &Named,
    init: &Option<Boxed<Init>>,
) -> Result<Checked<((u32, u32), (u64, DeclaredGlobal))>, AllocError>
    requires { types.now ≡ types_alone standing.now.scope.types }
    ensures { IfOk result (λ j. j ≡ spec.judged_global functions.now standing.now (object named.now) (initializer_if_any init.now)) }
{
    let name = free_name(&standing.scope, object_name(named))?;
    let number = next_of(standing.globals.len() as u64);
    let signatures = functions.signatures.as_slice();
    let made = global(alloc, &standing.scope, types, signatures, named, init)?;
    let made = summed(standing.bytes, made)?;
    Ok(both(both(name, number), made))
}

fn global_made(
    standing: Standing,
    judged: Checked<((u32, u32), (u64, DeclaredGlobal))>,
) -> Result<Checked<Standing>, AllocError>
    ensures standing { IfOk result (λ s. s ≡ spec.global_made standing judged) }
    ensures types { IfOk result (λ s. IfOk s (λ s. s.scope.types ≡ standing.scope.types)) }
{
    match judged {
        Err(rules) => Ok(Err(rules)),
        Ok(((name, _number), (bytes, made))) => {
            let with_one_more = with_global(standing, name, bytes, made)?;
            Ok(Ok(with_one_more))
        }
    }
}

/// What stands after the declaration of a global, or the rules that it breaks.
pub fn declared_global(
    alloc: Global,
    types: &Program,
    functions: &Functions,
    standing: Standing,
    named: &Named,
    init: &Option<Boxed<Init>>,
) -> Result<Checked<Standing>, AllocError>
    requires { types.now ≡ types_alone standing.scope.types }
    ensures standing { IfOk result (λ s. s ≡ spec.declared_global functions.now standing (object named.now) (initializer_if_any init.now)) }
    ensures types { IfOk result (λ s. IfOk s (λ s. s.scope.types ≡ standing.scope.types)) }
{
    let judged = judged_global(alloc, types, functions, &standing, named, init)?;
    global_made(standing, judged)
}
