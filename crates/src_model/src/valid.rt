// Whether a program is valid.

ghost use Rattle.std.specs.Prelude.{◌≡◌, ◌+◌, ◌≤◌, Some, length, IsTrue};
ghost use Rattle.std.specs.List.{list_all, list_any};
ghost use Rattle.c_types.specs.Words.{Tells};
ghost use Rattle.src_meaning.specs.ValidTypes.{signature_is_declared, is_declared_scalar};
ghost use Rattle.src_meaning.specs.ValidTable.{has_types};
ghost use Rattle.src_meaning.specs.ValidNames.{are_distinct};
ghost use Rattle.src_meaning.specs.Valid as spec;

use crate::valid_expr::Declarations;
use crate::valid_fits::type_of;
use crate::valid_init::{is_start, is_typed};
use crate::valid_names::{
    are_distinct, are_few_identifiers, is_called, is_free, is_name, names_differ,
};
use crate::valid_numbering::is_numbered;
use crate::valid_stmt::{are_statements, has_depth};
use crate::valid_table::has_types;
use crate::valid_types::{
    GREATEST_PARAMS, are_declared_scalars, is_declared_object, is_int, is_named, is_result,
    is_signature_declared,
};
use c_types::{FieldDef, GREATEST, Signature, TagDef, Ty, TyId};
use src_tree::expr::TypedExpr;
use src_tree::program::{Function, Global, Init, Program, Site};
use src_tree::signatures::has_signature;

/// The most structs, unions, fields of one, globals, functions and sites.
const GREATEST_COUNT: usize = 4096;
/// The most locals of a function, its parameters among them.
const GREATEST_LOCALS: usize = 256;
/// 65 less the constructs that are open: at a field or a global, at a parameter, and at a statement of a body.
const TOP: u32 = 65;

const PARAM_ROOM: u32 = 64;

const BODY_ROOM: u32 = 63;

fn is_field(p: &Program, field: &FieldDef) -> bool
    ensures { result ≡ spec.is_field p.now field.now }
{
    is_name(p.names.as_slice(), field.name) && is_declared_object(p.types.parts(), TOP, field.ty)
}

fn are_fields(p: &Program, fields: &[FieldDef]) -> bool
    ensures { result ≡ list_all (spec.is_field p.now) fields.now }
{
    fields.iter().all(|field| is_field(p, field))
}

fn is_tag(p: &Program, tag: &TagDef) -> bool
    ensures { result ≡ spec.is_tag p.now tag.now }
{
    is_name(p.names.as_slice(), tag.tag)
        && tag.fields.as_slice().len() <= GREATEST_COUNT
        && are_fields(p, tag.fields.as_slice())
}

fn are_declared_tags(p: &Program, tags: &[TagDef]) -> bool
    ensures { result ≡ list_all (spec.is_tag p.now) tags.now }
{
    tags.iter().all(|tag| is_tag(p, tag))
}

fn are_tags(p: &Program) -> bool
    ensures { result ≡ spec.are_tags p.now }
{
    let parts = p.types.parts();
    are_declared_tags(p, parts.structs.as_slice()) && are_declared_tags(p, parts.unions.as_slice())
}

fn is_signature(p: &Program, signature: &Signature) -> bool
    ensures { result ≡ spec.is_signature p.now.types signature.now }
{
    is_signature_declared(p.types.parts(), PARAM_ROOM, signature)
}

fn are_signatures(p: &Program) -> bool
    ensures { result ≡ list_all (spec.is_signature p.now.types) p.now.types.signatures }
{
    p.types
        .parts()
        .signatures
        .as_slice()
        .iter()
        .all(|signature| is_signature(p, signature))
}

fn holds_types(p: &Program) -> bool
    ensures { result ≡ has_types p.now.types }
{
    has_types(p.types.parts())
}

fn has_valid_types(p: &Program) -> bool
    ensures { result ≡ spec.has_valid_types p.now }
{
    holds_types(p) && are_tags(p) && are_signatures(p)
}

fn is_int_named(p: &Program, word: &[u8], field: &FieldDef) -> bool
    ensures { result ≡ spec.is_int_named p.now word.now field.now }
{
    is_called(p.names.as_slice(), field.name, word) && is_int(type_of(p, field.ty))
}

fn is_int_array(p: &Program, count: u32, ty: Option<Ty>) -> bool
    ensures { result ≡ spec.is_int_array p.now.types count ty }
{
    match ty {
        Some(Ty::Array(element, length)) => is_int(type_of(p, element)) && length == count,
        _ => false,
    }
}

fn are_message_fields(p: &Program, fields: &[FieldDef]) -> bool
    ensures { result ≡ spec.are_message_fields p.now fields.now }
{
    match fields {
        [source, kind, arg] => {
            is_int_named(p, b"source", source)
                && is_int_named(p, b"type", kind)
                && is_called(p.names.as_slice(), arg.name, b"arg")
                && is_int_array(p, 6, type_of(p, arg.ty))
        }
        _ => false,
    }
}

fn is_message(p: &Program, ty: Option<Ty>) -> bool
    ensures { result ≡ spec.is_message p.now ty }
{
    match ty {
        Some(Ty::Struct(number)) => match p.types.parts().structs.as_slice().get(number as usize) {
            None => false,
            Some(tag) => {
                is_called(p.names.as_slice(), tag.tag, b"message")
                    && are_message_fields(p, tag.fields.as_slice())
            }
        },
        _ => false,
    }
}

fn is_zero_start(init: &Init) -> bool
    ensures { result ≡ spec.is_zero_start init.now }
{
    match init {
        Init::Zero => true,
        Init::One(_) | Init::Text(_) | Init::List(_) => false,
    }
}

fn is_message_global(p: &Program, word: &[u8], global: &Global) -> bool
    ensures { result ≡ spec.is_message_global p.now word.now global.now }
{
    is_called(p.names.as_slice(), global.name, word)
        && is_message(p, type_of(p, global.ty))
        && is_zero_start(&global.init)
}

fn has_messages(p: &Program, globals: &[Global]) -> bool
    ensures { result ≡ spec.has_messages p.now globals.now }
{
    match globals {
        [first, second, ..] => {
            is_message_global(p, b"m_in", first) && is_message_global(p, b"m_out", second)
        }
        _ => false,
    }
}

fn is_global(p: &Program, number: u32, global: &Global) -> bool
    ensures { result ≡ spec.is_global p.now number global.now }
{
    is_free(p.names.as_slice(), global.name)
        && is_declared_object(p.types.parts(), TOP, global.ty)
        && is_start(p, number, global.ty, &global.init)
}

fn are_globals(p: &Program, number: u32, globals: &[Global]) -> bool
    requires { number + length globals.now ≤ 4096 }
    ensures { result ≡ spec.are_globals p.now number globals.now }
{
    match globals.split_first() {
        None => true,
        Some((global, rest)) => is_global(p, number, global) && are_globals(p, number + 1, rest),
    }
}

fn are_within(p: &Program, room: u32, globals: &[Global]) -> bool
    ensures { result ≡ spec.are_within p.now room globals.now }
{
    match globals.split_first() {
        None => true,
        Some((global, rest)) => {
            let size = p.types.size_of(global.ty);
            size <= room && are_within(p, room - size, rest)
        }
    }
}

fn has_valid_globals(p: &Program) -> bool
    ensures { result ≡ spec.has_valid_globals p.now }
{
    let globals = p.globals.as_slice();
    if globals.len() > GREATEST_COUNT {
        return false;
    }
    has_messages(p, globals) && are_globals(p, 0, globals) && are_within(p, GREATEST, globals)
}

fn has_few_locals(function: &Function) -> bool
    ensures { result ≡ spec.has_few_locals function.now }
{
    let params = function.params.as_slice().len();
    let locals = function.locals.as_slice().len();
    params <= GREATEST_PARAMS && locals <= GREATEST_LOCALS && params + locals <= GREATEST_LOCALS
}

fn is_signature_known(p: &Program, function: &Function) -> bool
    ensures { result ≡ spec.is_signature_known p.now function.now }
{
    p.types
        .parts()
        .signatures
        .as_slice()
        .iter()
        .any(|signature| has_signature(function, signature))
}

fn is_body(p: &Program, function: &Function) -> bool
    ensures { result ≡ spec.is_body p.now function.now }
{
    let at = Declarations {
        program: p,
        params: function.params.as_slice(),
        locals: function.locals.as_slice(),
    };
    are_statements(
        &at,
        function.ret,
        false,
        BODY_ROOM,
        function.body.as_slice(),
    )
}

fn is_function(p: &Program, function: &Function) -> bool
    ensures { result ≡ spec.is_function p.now function.now }
{
    let parts = p.types.parts();
    is_free(p.names.as_slice(), function.name)
        && has_few_locals(function)
        && is_result(parts, function.ret)
        && are_declared_scalars(parts, PARAM_ROOM, function.params.as_slice())
        && is_signature_known(p, function)
        && is_body(p, function)
}

fn is_handler(p: &Program, word: &[u8], function: &Function) -> bool
    ensures { result ≡ spec.is_handler p.now word.now function.now }
{
    is_called(p.names.as_slice(), function.name, word)
        && function.params.as_slice().is_empty()
        && function.ret.is_none()
}

fn has_handler(p: &Program, word: &[u8]) -> bool
    ensures { result ≡ list_any (spec.is_handler p.now word.now) p.now.functions }
{
    p.functions
        .as_slice()
        .iter()
        .any(|function| is_handler(p, word, function))
}

fn has_handlers(p: &Program) -> bool
    ensures { result ≡ spec.has_handlers p.now }
{
    has_handler(p, b"init") && has_handler(p, b"on_message")
}

fn is_object_site(p: &Program, site: &Site) -> bool
    ensures { result ≡ spec.is_object_site p.now site.now }
{
    is_named(p.types.parts(), site.elem)
}

fn are_object_sites(p: &Program) -> bool
    ensures { result ≡ list_all (spec.is_object_site p.now) p.now.sites }
{
    p.sites
        .as_slice()
        .iter()
        .all(|site| is_object_site(p, site))
}

fn are_functions(p: &Program) -> bool
    ensures { result ≡ list_all (spec.is_function p.now) p.now.functions }
{
    p.functions
        .as_slice()
        .iter()
        .all(|function| is_function(p, function))
}

fn has_valid_functions(p: &Program) -> bool
    ensures { result ≡ spec.has_valid_functions p.now }
{
    let functions = p.functions.as_slice();
    if functions.len() > GREATEST_COUNT {
        return false;
    }
    are_functions(p)
        && has_handlers(p)
        && are_object_sites(p)
        && is_numbered(p.sites.as_slice(), functions)
}

fn has_few_entries(p: &Program) -> bool
    ensures { result ≡ spec.has_few_entries p.now }
{
    let parts = p.types.parts();
    parts.structs.as_slice().len() <= GREATEST_COUNT
        && parts.unions.as_slice().len() <= GREATEST_COUNT
        && p.sites.as_slice().len() <= GREATEST_COUNT
}

fn keeps_rules_where_distinct(p: &Program) -> bool
    requires { IsTrue (are_distinct p.now.names) }
    ensures { result ≡ spec.is_valid p.now }
{
    are_few_identifiers(p.names.as_slice())
        && has_few_entries(p)
        && names_differ(p.globals.as_slice(), p.functions.as_slice())
        && has_valid_types(p)
        && has_valid_globals(p)
        && has_valid_functions(p)
}

fn keeps_rules(p: &Program) -> bool
    ensures { result ≡ spec.is_valid p.now }
{
    are_distinct(p.names.as_slice()) && keeps_rules_where_distinct(p)
}

/// Whether a program is valid: it has what each program has that the rules of the language accept.
pub trait Validity {
    /// Whether the program is valid. It takes no memory. Its time rises with the square of the number of names, and may rise
    /// steeply with signatures in signatures.
    fn valid(&self) -> bool;
}

impl Validity for Program {
    fn valid(&self) -> bool
        ensures { Tells result (spec.IsValid self.now) }
    {
        let _parts = self.types.parts();
        keeps_rules(self)
    }
}

/// Whether the program is valid, as `valid` says it, where no two of its names are equal: they aren't compared again.
/// It takes no memory. Its time is near linear in the program where the table of types stands in its usual order: the
/// integer types, `void *`, the structs, the unions and the pointers to functions, each with the pointers over it. But
/// the signature of each function is searched for among all signatures, whose number has no bound of its own.
pub fn valid_where_distinct(program: &Program) -> bool
    requires { IsTrue (are_distinct program.now.names) }
    ensures { Tells result (spec.IsValid program.now) }
{
    let _parts = program.types.parts();
    keeps_rules_where_distinct(program)
}

/// Whether the expression is valid in the program, as that of a filter is: it names globals and functions alone, is typed as
/// the rules type it, and keeps the bounds on depth and chains. It takes no memory.
pub fn is_valid_expression(program: &Program, e: &TypedExpr) -> bool
    ensures { Tells result (spec.IsValidExpression program.now e.now) }
{
    is_typed(program, e) && has_depth(TOP, e)
}
