// The handlers of an update, and its last call.

ghost use Rattle.std.specs.Prelude.{◌≡◌, ◌<◌, ◌^◌, [], length, IfOk, slice_get};
ghost use Rattle.lu_image.specs.Names.{entry_at};
ghost use Rattle.lu_image.specs.Pairs.{is_struct, is_pointer_to, are_forms, takes_forms, is_plain};
ghost use Rattle.lu_pair.specs.Outlines.{signature_of};
ghost use Rattle.lu_resolve.specs.Causes.{Gives};
ghost use Rattle.lu_resolve.specs.Handlers.{function_where, paired_struct, has_handler, handler_of, handlers_onto, last_of};

use crate::ResolveError;
use crate::names::{find_function, find_tag};
use c_types::{Parts, Ty, TyId};
use lu_base::{Memory, Name, Sequence};
use lu_image::Handler;
use lu_load_lines::{NameKind, PairingRefusal};
use src_tree::program::{Function, Program};
use std::alloc::Global;

fn is_struct(ty: Option<Ty>, number: u32) -> bool
    ensures { result ≡ is_struct ty number }
{
    match ty {
        Some(Ty::Struct(own)) => own == number,
        _ => false,
    }
}

/// Whether a type is a pointer to the struct of that number.
fn is_pointer_to(parts: &Parts, ty: TyId, number: u32) -> bool
    ensures { result ≡ is_pointer_to parts.now (slice_get parts.now.types ty) number }
{
    match parts.find_type(ty) {
        Some(Ty::Pointer(target)) => is_struct(parts.find_type(target), number),
        _ => false,
    }
}

/// Whether parameters are pointers to the old form and to the pair of a struct.
fn are_forms(parts: &Parts, form: u32, pair: Option<u32>, params: &[TyId]) -> bool
    ensures { result ≡ are_forms parts.now form pair params.now }
{
    match pair {
        None => false,
        Some(pair) => match params {
            [first, second] => {
                is_pointer_to(parts, *first, form) && is_pointer_to(parts, *second, pair)
            }
            _ => false,
        },
    }
}

fn takes_forms(parts: &Parts, form: u32, pair: Option<u32>, function: &Function) -> bool
    ensures { result ≡ takes_forms parts.now form pair (signature_of function.now) }
{
    function.ret.is_none() && are_forms(parts, form, pair, function.params.as_slice())
}

fn is_plain(function: &Function) -> bool
    ensures { result ≡ is_plain (signature_of function.now) }
{
    function.ret.is_none() && function.params.as_slice().is_empty()
}

/// The pair of a number.
fn pair_at(pairs: &[Option<u32>], number: u32) -> Option<u32>
    ensures { result ≡ entry_at pairs.now number }
{
    match pairs.get(number as usize) {
        None => None,
        Some(pair) => *pair,
    }
}

/// The struct of a name, if it has a pair.
fn paired_struct(old: &Program, pairs: &[Option<u32>], name: &Name) -> Option<u32>
    requires { length old.now.types.structs < 2 ^ 32 }
    ensures { result ≡ paired_struct old.now pairs.now name.now }
{
    let structs = old.types.parts().structs.as_slice();
    match find_tag(old.names.as_slice(), structs, name) {
        None => None,
        Some(number) => {
            if pair_at(pairs, number).is_some() {
                Some(number)
            } else {
                None
            }
        }
    }
}

/// The function of a name that takes pointers to the old form and to the pair of a struct.
fn handling_function(new: &Program, form: u32, pair: Option<u32>, name: &Name) -> Option<u32>
    requires { length new.now.functions < 2 ^ 32 }
    ensures { result ≡ function_where new.now (takes_forms new.now.types form pair) name.now }
{
    match find_function(new, name) {
        None => None,
        Some(number) => match new.functions.as_slice().get(number as usize) {
            Some(function) if takes_forms(new.types.parts(), form, pair, function) => Some(number),
            _ => None,
        },
    }
}

/// The function of a name without parameters and without a result.
fn last_function(new: &Program, name: &Name) -> Option<u32>
    requires { length new.now.functions < 2 ^ 32 }
    ensures { result ≡ function_where new.now is_plain name.now }
{
    match find_function(new, name) {
        None => None,
        Some(number) => match new.functions.as_slice().get(number as usize) {
            Some(function) if is_plain(function) => Some(number),
            _ => None,
        },
    }
}

fn has_handler(handlers: &[Handler], structure: u32) -> bool
    ensures { result ≡ has_handler handlers.now structure }
{
    handlers
        .iter()
        .any(|handler| handler.structure == structure)
}

fn nosuch(alloc: Global, kind: NameKind, name: &Name) -> Result<ResolveError, Memory>
    ensures { IfOk result (λ e. e ≡ ResolveError.Refused (PairingRefusal.NoSuch kind name.now)) }
{
    let name = name.copy(alloc)?;
    Ok(ResolveError::Refused(PairingRefusal::NoSuch { kind, name }))
}

fn twice(alloc: Global, name: &Name) -> Result<ResolveError, Memory>
    ensures { IfOk result (λ e. e ≡ ResolveError.Refused (PairingRefusal.Twice NameKind.Handler name.now)) }
{
    let name = name.copy(alloc)?;
    Ok(ResolveError::Refused(PairingRefusal::Twice {
        kind: NameKind::Handler,
        name,
    }))
}

/// The handler of a plan behind earlier ones, where old structs have these pairs.
fn handler_of(
    alloc: Global,
    old: &Program,
    new: &Program,
    pairs: &[Option<u32>],
    earlier: &[Handler],
    planned: &plan_file::Handler,
) -> Result<Handler, ResolveError>
    requires old_structs { length old.now.types.structs < 2 ^ 32 }
    requires new_structs { length new.now.types.structs < 2 ^ 32 }
    requires functions { length new.now.functions < 2 ^ 32 }
    ensures { Gives (handler_of old.now new.now pairs.now earlier.now planned.now) result }
{
    let kind = NameKind::Handler;
    let Some(structure) = paired_struct(old, pairs, &planned.old) else {
        return Err(nosuch(alloc, kind, &planned.old)?);
    };
    let structs = new.types.parts().structs.as_slice();
    let Some(form) = find_tag(new.names.as_slice(), structs, &planned.old_form) else {
        return Err(nosuch(alloc, kind, &planned.old_form)?);
    };
    let pair = pair_at(pairs, structure);
    let Some(function) = handling_function(new, form, pair, &planned.function) else {
        return Err(nosuch(alloc, kind, &planned.function)?);
    };
    if has_handler(earlier, structure) {
        return Err(twice(alloc, &planned.old)?);
    }
    Ok(Handler {
        structure,
        form,
        function,
    })
}

/// The handlers of a plan in turn, where old structs have these pairs.
pub fn handlers_of(
    alloc: Global,
    old: &Program,
    new: &Program,
    pairs: &[Option<u32>],
    planned: &[plan_file::Handler],
) -> Result<Sequence<Handler>, ResolveError>
    requires old_structs { length old.now.types.structs < 2 ^ 32 }
    requires new_structs { length new.now.types.structs < 2 ^ 32 }
    requires functions { length new.now.functions < 2 ^ 32 }
    ensures { Gives (handlers_onto old.now new.now pairs.now [] planned.now) result }
{
    let mut handlers = Sequence::from_vec(Vec::new(alloc));
    for handler in planned {
        let found = handler_of(alloc, old, new, pairs, handlers.as_slice(), handler)?;
        handlers.push(found)?;
    }
    Ok(handlers)
}

/// The function that is called last, if the plan names one.
pub fn last_of(
    alloc: Global,
    new: &Program,
    name: &Option<Name>,
) -> Result<Option<u32>, ResolveError>
    requires { length new.now.functions < 2 ^ 32 }
    ensures { Gives (last_of new.now name.now) result }
{
    match name {
        None => Ok(None),
        Some(name) => match last_function(new, name) {
            Some(function) => Ok(Some(function)),
            None => Err(nosuch(alloc, NameKind::After, name)?),
        },
    }
}
