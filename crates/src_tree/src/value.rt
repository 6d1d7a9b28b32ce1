// Values, objects and stores.

use c_types::TyId;
use sqlite_items::{Boxed, Items};

/// A value of an object, of a part of one, or of a local.
#[derive(Drop)]
pub enum Value {
    /// An integer of any integer type.
    Int(i128),
    /// The null pointer, of any object or function pointer type.
    Null,
    /// A pointer to an object of the store, by its number, at an offset in bytes of 0 to the object's size.
    Pointer(u32, u32),
    /// A pointer to a function, by its number.
    Function(u32),
    /// The fields in order.
    Struct(Items<Value>),
    /// The elements in order.
    Array(Items<Value>),
    /// The number of the active member, and its value.
    Union(u32, Boxed<Value>),
}

/// Where an object comes from.
#[derive(Clone, Copy, Debug, PartialEq, Eq)]
pub enum ObjectKind {
    Global,
    /// Allocated at the site of this number.
    Heap(u32),
    /// The argument of an update handler; it counts as a heap object.
    Temporary,
}

/// An object: so many elements of one type.
#[derive(Drop)]
pub struct Object {
    pub kind: ObjectKind,
    pub elem: TyId,
    pub count: u32,
    /// The elements in order, while the object is live; none once it is dead.
    pub elements: Option<Items<Value>>,
}

/// The objects of a process: globals by declaration, then heap objects by allocation.
#[derive(Drop)]
pub struct Store {
    pub objects: Items<Object>,
}
