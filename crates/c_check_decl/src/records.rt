// Structs and unions as they are declared.

ghost use Rattle.std.specs.Prelude.{◌≡◌, IfOk, [], Ok};
ghost use Rattle.c_ast.specs.Trees.{object, objects};
ghost use Rattle.c_check_decl.specs.Records as spec;

use crate::layout::record_size;
use crate::objects::small_type;
use crate::shaped::Shaped;
use c_ast::decl::Named;
use c_ast::types::TagKind;
use c_check_expr::objects::object_number;
use c_check_scope::checked::{Checked, both, broken};
use c_check_scope::names::{Names, object_name};
use c_check_scope::numbers::as_number;
use c_check_scope::rule::Rule;
use c_check_scope::rules::Rules;
use c_check_scope::scope::Scope;
use c_types::{FieldDef, GREATEST, Sequence, TypeTable};
use lu_base::Name;
use std::alloc::{AllocError, Global};

/// The fields that a struct or union may have.
pub const GREATEST_FIELDS: usize = 4_096;

/// The number of a name; 0 where the text doesn't have it.
#[tactic(auto, unfolding(crate::specs::Records::name_number))]
pub fn name_number(scope: &Scope, name: &Name) -> Result<u32, AllocError>
    ensures { IfOk result (λ number. number ≡ spec.name_number scope.now name.now) }
{
    match scope.names.number_of(name) {
        None => Ok(0),
        Some(number) => as_number(number),
    }
}

#[tactic(auto, unfolding(crate::specs::Records::field))]
fn field(
    alloc: Global,
    scope: &Scope,
    table: &TypeTable,
    named: &Named,
) -> Result<Checked<FieldDef>, AllocError>
    requires { table.now ≡ scope.now.types }
    ensures { IfOk result (λ f. f ≡ spec.field scope.now (object named.now)) }
{
    match small_type(alloc, scope, table, named)? {
        Err(rules) => Ok(Err(rules)),
        Ok(ty) => {
            let name = name_number(scope, object_name(named))?;
            Ok(Ok(FieldDef {
                name,
                ty: object_number(&scope.types, ty),
            }))
        }
    }
}

/// Fields with one more at the end.
#[tactic(auto, unfolding(crate::specs::Records::one_more))]
pub fn one_more(
    done: Checked<Sequence<FieldDef>>,
    field: Checked<FieldDef>,
) -> Result<Checked<Sequence<FieldDef>>, AllocError>
    ensures { IfOk result (λ fields. fields ≡ spec.one_more done field) }
{
    match both(done, field) {
        Err(rules) => Ok(Err(rules)),
        Ok((done, field)) => {
            let mut fields = done.into_vec();
            fields.push(field)?;
            Ok(Ok(Sequence::from_vec(fields)))
        }
    }
}

fn fields_of(
    alloc: Global,
    scope: &Scope,
    table: &TypeTable,
    fields: &[Named],
) -> Result<Checked<Sequence<FieldDef>>, AllocError>
    requires { table.now ≡ scope.now.types }
    ensures { IfOk result (λ done. done ≡ spec.fields_after scope.now (Ok []) (objects fields.now)) }
{
    let mut done: Checked<Sequence<FieldDef>> = Ok(Sequence::from_vec(Vec::new(alloc)));
    for named in fields {
        let next = field(alloc, scope, table, named)?;
        done = one_more(done, next)?;
    }
    Ok(done)
}

fn names_differ(alloc: Global, fields: &[Named]) -> Result<bool, AllocError>
    ensures { IfOk result (λ differ. differ ≡ spec.differ_after [] (objects fields.now)) }
{
    let mut seen = Names::new(alloc);
    for field in fields {
        let name = object_name(field);
        if seen.number_of(name).is_some() {
            return Ok(false);
        }
        seen.add(alloc, name)?;
    }
    Ok(true)
}

fn well_named(alloc: Global, fields: &[Named]) -> Result<bool, AllocError>
    ensures { IfOk result (λ well. well ≡ spec.well_named (objects fields.now)) }
{
    match fields.split_first() {
        None => Ok(false),
        Some(_) => names_differ(alloc, fields),
    }
}

#[tactic(auto, using(crate::proofs::FieldLists::objects_length))]
fn few(fields: &[Named]) -> bool
    ensures { result ≡ spec.few (objects fields.now) }
{
    fields.len() <= GREATEST_FIELDS
}

#[tactic(auto, unfolding(crate::specs::Records::with_rule))]
fn with_rule<A: Drop>(keeps: bool, rule: Rule, judged: Checked<A>) -> Checked<A>
    ensures { result ≡ spec.with_rule keeps rule judged }
{
    if keeps {
        judged
    } else {
        Err(broken(Rules::only(rule), judged))
    }
}

#[tactic(auto, unfolding(crate::specs::Records::small_record))]
fn small_record<S: Shaped>(
    shapes: &S,
    kind: TagKind,
    fields: Checked<Sequence<FieldDef>>,
) -> Checked<Sequence<FieldDef>>
    ensures { result ≡ spec.small_record (S.shapes shapes.now) kind fields }
{
    match fields {
        Err(rules) => Err(rules),
        Ok(fields) => {
            if (GREATEST as u128) < record_size(shapes, kind, fields.as_slice()) {
                Err(Rules::only(Rule::Size))
            } else {
                Ok(fields)
            }
        }
    }
}

/// The fields of a struct or union, of which each is judged: at least one, at most 4,096, no name twice, and of at most
/// 1,048,576 bytes together, which is judged where each field has a type.
#[tactic(auto, unfolding(crate::specs::Records::judged_fields))]
pub fn judged_fields<S: Shaped>(
    alloc: Global,
    shapes: &S,
    kind: TagKind,
    fields: &[Named],
    judged: Checked<Sequence<FieldDef>>,
) -> Result<Checked<Sequence<FieldDef>>, AllocError>
    ensures { IfOk result (λ all. all ≡ spec.judged_fields (S.shapes shapes.now) kind (objects fields.now) judged) }
{
    let well_named = well_named(alloc, fields)?;
    let judged = small_record(shapes, kind, judged);
    let judged = with_rule(few(fields), Rule::TooMany, judged);
    Ok(with_rule(well_named, Rule::Fields, judged))
}

/// The fields of a struct or union: at least one, at most 4,096, no name twice, each of at most 1,048,576 bytes, and
/// so the whole, which is judged where each field has a type; or the rules that are broken. A field's name has its
/// number in the text, or 0 where it isn't there.
#[tactic(auto, unfolding(crate::specs::Records::record_fields))]
pub fn record_fields(
    alloc: Global,
    scope: &Scope,
    table: &TypeTable,
    kind: TagKind,
    fields: &[Named],
) -> Result<Checked<Sequence<FieldDef>>, AllocError>
    requires { table.now ≡ scope.now.types }
    ensures { IfOk result (λ judged. judged ≡ spec.record_fields scope.now kind (objects fields.now)) }
{
    let judged = fields_of(alloc, scope, table, fields)?;
    judged_fields(alloc, table, kind, fields, judged)
}
