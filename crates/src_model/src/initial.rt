// The store at the start.

ghost use Rattle.std.specs.Prelude.{◌≡◌, ◌++◌, ◌<◌, map, drop, length, IfOk, IfSome, slice_get};
ghost use Rattle.c_types.specs.Recursion.{depth};
ghost use Rattle.src_tree.specs.declared.value.Value.{out-Value};
ghost use Rattle.src_tree.specs.declared.value.Value as V;
ghost use Rattle.src_meaning.specs.Paths.{zero_of};
ghost use Rattle.src_meaning.specs.Constant.{as_value};
ghost use Rattle.src_meaning.specs.Initial.{item_types, items_in, byte_in, composed, spread, text_items, initial_scope, initial_value, initial_object, initial_store};

use crate::constant::evaluate;
use crate::integers::wrap;
use c_types::{Parts, Ty, TyId, TypeTable};
use lu_base::Memory;
use sqlite_items::{Boxed, Items};
use src_meaning::constant::Constant;
use src_tree::program::{Global as GlobalVariable, Init, Program};
use src_tree::value::{Object, ObjectKind, Store, Value};
use std::alloc::Global;

fn item_type_in(parts: &Parts, number: TyId, index: usize) -> Option<TyId>
    ensures { result ≡ slice_get (item_types parts.now number) index }
{
    match parts.find_type(number) {
        Some(Ty::Array(elem, count)) => {
            if index < count as usize {
                Some(elem)
            } else {
                None
            }
        }
        Some(Ty::Struct(tag)) => match parts.fields_of(tag).get(index) {
            None => None,
            Some(field) => Some(field.ty),
        },
        _ => None,
    }
}

/// The type of an element of an array, or of a field of a struct. None where there is no such item.
fn item_type(types: &TypeTable, number: TyId, index: usize) -> Option<TyId>
    ensures value { result ≡ slice_get (item_types types.now number) index }
    ensures falls { IfSome result (λ ty. depth types.now ty < depth types.now number) }
{
    item_type_in(types.parts(), number, index)
}

/// The zero value of a type.
#[cycle(zero_value)]
fn zero_value(alloc: Global, types: &TypeTable, number: TyId) -> Result<Value, Memory>
    ensures { IfOk result (λ value. value ≡ zero_of types.now number) }
{
    match types.parts().find_type(number) {
        None => Ok(Value::Null),
        Some(Ty::Int(_)) => Ok(Value::Int(0)),
        Some(Ty::Pointer(_) | Ty::VoidPointer | Ty::Function(_)) => Ok(Value::Null),
        Some(Ty::Struct(_)) => {
            let fields = with_zeros(alloc, types, number, Items::new(alloc))?;
            Ok(Value::Struct(fields))
        }
        Some(Ty::Array(_, _)) => {
            let elements = with_zeros(alloc, types, number, Items::new(alloc))?;
            Ok(Value::Array(elements))
        }
        Some(Ty::Union(tag)) => match types.parts().members_of(tag).first() {
            None => Ok(Value::Null),
            Some(member) => {
                let body = zero_value(alloc, types, member.ty)?;
                Ok(Value::Union(0, Boxed::new(alloc, body)?))
            }
        },
    }
}

/// Zeros for the elements of an array, or the fields of a struct, after the first ones.
#[cycle(zero_value)]
fn with_zeros(
    alloc: Global,
    types: &TypeTable,
    number: TyId,
    first: Items<Value>,
) -> Result<Items<Value>, Memory>
    ensures { IfOk result (λ items. items
        ≡ first ++ map (zero_of types.now) (drop (length first) (item_types types.now number))) }
{
    let mut items = first;
    while let Some(ty) = item_type(types, number, items.len()) {
        items.push(zero_value(alloc, types, ty)?)?;
    }
    Ok(items)
}

/// An array or a struct of these items; any other type has its zero value.
fn composed(
    alloc: Global,
    types: &TypeTable,
    number: TyId,
    items: Items<Value>,
) -> Result<Value, Memory>
    ensures { IfOk result (λ value. value ≡ composed types.now number items) }
{
    match types.parts().find_type(number) {
        Some(Ty::Array(_, _)) => Ok(Value::Array(items)),
        Some(Ty::Struct(_)) => Ok(Value::Struct(items)),
        _ => zero_value(alloc, types, number),
    }
}

/// A byte of a text as an integer of a type; 0 where the type is no integer type.
fn byte_value(types: &TypeTable, number: TyId, byte: u8) -> Value
    ensures { result ≡ V.Int (byte_in (slice_get types.now.types number) byte) }
{
    match types.parts().find_type(number) {
        Some(Ty::Int(kind)) => Value::Int(wrap(kind, byte as i128)),
        _ => Value::Int(0),
    }
}

/// The bytes of a text as the first elements; the rest is zero.
fn text_items(
    alloc: Global,
    types: &TypeTable,
    number: TyId,
    bytes: &[u8],
) -> Result<Items<Value>, Memory>
    ensures { IfOk result (λ items. items ≡ text_items types.now (item_types types.now number) bytes.now) }
{
    let mut items = Items::new(alloc);
    for byte in bytes {
        if let Some(ty) = item_type(types, number, items.len()) {
            items.push(byte_value(types, ty, *byte))?;
        }
    }
    with_zeros(alloc, types, number, items)
}

fn constant_value(constant: Constant) -> Value
    ensures { result ≡ as_value constant }
{
    match constant {
        Constant::Int(z) => Value::Int(z),
        Constant::Null => Value::Null,
        Constant::Start(global) => Value::Pointer(global, 0),
        Constant::Function(number) => Value::Function(number),
    }
}

/// The value of a type that an initialiser gives.
#[cycle(initial_value)]
fn initial_value(alloc: Global, p: &Program, number: TyId, init: &Init) -> Result<Value, Memory>
    ensures { IfOk result (λ value. value ≡ initial_value (initial_scope p.now) number init.now) }
{
    match init {
        Init::Zero => zero_value(alloc, &p.types, number),
        Init::One(e) => match evaluate(p, e) {
            Some(constant) => Ok(constant_value(constant)),
            None => zero_value(alloc, &p.types, number),
        },
        Init::Text(bytes) => {
            let items = text_items(alloc, &p.types, number, bytes.as_slice())?;
            composed(alloc, &p.types, number, items)
        }
        Init::List(inits) => {
            let items = initial_items(alloc, p, number, inits.as_slice())?;
            composed(alloc, &p.types, number, items)
        }
    }
}

/// Values for the elements of an array or the fields of a struct; the rest is zero.
#[cycle(initial_value)]
fn initial_items(
    alloc: Global,
    p: &Program,
    number: TyId,
    inits: &[Init],
) -> Result<Items<Value>, Memory>
    ensures { IfOk result (λ items. items
        ≡ spread p.now.types (initial_value (initial_scope p.now)) (item_types p.now.types number) inits.now) }
{
    let mut items = Items::new(alloc);
    for init in inits {
        if let Some(ty) = item_type(&p.types, number, items.len()) {
            items.push(initial_value(alloc, p, ty, init)?)?;
        }
    }
    with_zeros(alloc, &p.types, number, items)
}

/// The elements of an array value; none of any other value.
fn items_of(alloc: Global, value: Value) -> Items<Value>
    ensures { result ≡ items_in (out-Value value) }
{
    match value {
        Value::Array(items) => items,
        _ => Items::new(alloc),
    }
}

/// A global with its initialiser's value.
fn initial_object(alloc: Global, p: &Program, global: &GlobalVariable) -> Result<Object, Memory>
    ensures { IfOk result (λ object. object ≡ initial_object p.now global.now) }
{
    let value = initial_value(alloc, p, global.ty, &global.init)?;
    match p.types.parts().find_type(global.ty) {
        Some(Ty::Array(elem, count)) => Ok(Object {
            kind: ObjectKind::Global,
            elem,
            count,
            elements: Some(items_of(alloc, value)),
        }),
        _ => {
            let mut elements = Items::new(alloc);
            elements.push(value)?;
            Ok(Object {
                kind: ObjectKind::Global,
                elem: global.ty,
                count: 1,
                elements: Some(elements),
            })
        }
    }
}

/// The store before `init` runs: each global in order, with what its initialiser says.
pub fn initial_store(alloc: Global, p: &Program) -> Result<Store, Memory>
    ensures { IfOk result (λ store. store ≡ initial_store p.now) }
{
    let mut objects = Items::new(alloc);
    for global in p.globals.as_slice() {
        objects.push(initial_object(alloc, p, global)?)?;
    }
    Ok(Store { objects })
}
